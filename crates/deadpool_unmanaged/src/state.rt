//! The core of an unmanaged pool: a line for objects, a line for room, and the idle objects; and each step that a get,
//! an add or an object makes.
//!
//! `counted` has what a core says of itself, and `owner` the steps of the pool's owner.
ghost use Rattle.std.specs.Prelude.{◌≡◌, ◌-◌, ◌<◌, ◌≤◌, not, [], ◌++◌, None, length, vec_capacity, IfOk, IsSome};
ghost use Rattle.std.specs.Prelude.{OnErr, OnOk};
ghost use Rattle.std.specs.Option.{option_to_list};
ghost use Rattle.deadpool_gate.specs.Gate.{unnotified_tickets};
ghost use Rattle.deadpool_gate.specs.Queue.{served};
ghost use Rattle.deadpool_gate.specs.Served.{free_of, queue_of};
ghost use Rattle.deadpool_unmanaged.specs.Kept.{IsKept};
ghost use Rattle.deadpool_unmanaged.specs.State.{bounded, has_due, last_idle, opened, other_idle};
ghost use Rattle.deadpool_unmanaged.specs.Replies.{Brings, IsReplyTo, Leaves};
ghost use Rattle.deadpool_unmanaged.specs.Room.{HasRoom, RoomLasts, SameRoom};
ghost use Rattle.deadpool_unmanaged.specs.StateSteps.{Makes, Steps, TakesGetWake, TakesAddWake};

mod counted;
mod owner;

use crate::{Reply, Step};
use deadpool_gate::gate::{Ask, Entry, Gate, Ticket, Withdrawn};
use std::alloc::{AllocError, Global};
use std::marker::Model;

/// The state of an unmanaged pool on one thread. A step that puts something in or gives something back ends with the
/// settling: the earliest gets that wait are granted the objects that are free, and the earliest adds the free room. So
/// in an open pool nobody waits for what is free. In an open pool with a handle, an object or room that was granted is
/// nobody else's until its party has asked or cancelled.
///
/// No step tells a get or an add in the queue that its wait has ended. Who owns the core asks `take_get_wake` and
/// `take_add_wake` whom to tell.
#[derive(Drop)]
pub struct Core<T> {
    // Gets ask for objects, and adds for room.
    gets: Gate,
    adds: Gate,
    // The last is the next to go out.
    idle: Vec<T>,
    limit: usize,
    // How many objects are out.
    outside: usize,
    handles: u64,
    // How many gets may wait, and how many adds. So many as the greatest number never do.
    max_waiting: usize,
}

impl<T> Model for Core<T> {
    ghost use Rattle.deadpool_unmanaged.specs.State.{CoreState};

    ghost Value = { CoreState T };

    ghost use Rattle.deadpool_unmanaged.specs.CoreFields.{core_of, CoreInvariant};

    ghost view = { core_of };

    ghost invariant = { CoreInvariant };
}

// The next object goes out.
#[inline(always)]
fn take_last<T>(idle: &mut Vec<T>) -> Option<T>
    ensures value { result ≡ last_idle idle.old.items }
    ensures others { idle.new.items ≡ other_idle idle.old.items }
    ensures room { vec_capacity idle.old ≤ vec_capacity idle.new }
{
    idle.pop()
}

// The object in the hand joins the idle ones, where there is room for it, and the earliest get that waits is granted
// it.
#[inline(always)]
fn store<T: Drop>(idle: &mut Vec<T>, gets: &mut Gate, hand: &mut Option<T>)
    requires room { length idle.old.items < vec_capacity idle.old }
    requires hand { IsSome hand.old }
    ensures idle { idle.new.items ≡ idle.old.items ++ option_to_list hand.old }
    ensures room { vec_capacity idle.old ≤ vec_capacity idle.new }
    ensures hand { hand.new ≡ None }
    ensures gets { queue_of gets.new.waiters ≡ served (not gets.old.is_closed)
        (free_of (length idle.new.items) 0 (queue_of gets.old.waiters))
        (queue_of gets.old.waiters) }
    ensures unnotified { unnotified_tickets gets.new.waiters ≡ unnotified_tickets gets.old.waiters }
    ensures closed { gets.new.is_closed ≡ gets.old.is_closed }
    ensures capacity { gets.new.capacity ≡ gets.old.capacity }
{
    let Some(value) = hand.take() else {
        unreachable!();
    };
    match idle.push(value) {
        Ok(()) => gets.settle_within(idle.len(), 0),
        Err(_) => unreachable!(),
    }
}

impl<T: Drop> Core<T> {
    /// An open pool with nothing idle and one handle. It has room for `max_size` objects from now on: only
    /// those that enter are answered `OutOfMemory`, for an entry in a queue that has no room left.
    pub fn new(alloc: Global, max_size: usize) -> Result<Core<T>, AllocError>
        ensures { IfOk result (λ core. core.pool ≡ opened max_size []) }
    {
        let idle = Vec::with_capacity(alloc, max_size)?;
        Ok(Core::open(alloc, idle, max_size))
    }

    /// An open pool with one handle, in which these objects are idle, the last to go out first, and no more fit.
    pub fn from_items(alloc: Global, items: Vec<T>) -> Core<T>
        ensures { result.pool ≡ opened (length items.items) items.items }
    {
        let limit = items.len();
        Core::open(alloc, items, limit)
    }

    // An open pool with these objects idle and one handle.
    fn open(alloc: Global, idle: Vec<T>, limit: usize) -> Core<T>
        requires few { length idle.items ≤ limit }
        requires room { limit ≤ vec_capacity idle }
        ensures { result.pool ≡ opened limit idle.items }
    {
        Core {
            gets: Gate::new(alloc),
            adds: Gate::new(alloc),
            idle,
            limit,
            outside: 0,
            handles: 1,
            max_waiting: usize::MAX,
        }
    }

    /// The pool with a bound on the gets that wait, and on the adds, or with none, before any waits.
    pub fn bounded(self, max_waiting: Option<usize>) -> Self
        requires gets { self.pool.gets.waiting ≡ [] }
        requires adds { self.pool.adds.waiting ≡ [] }
        ensures { result ≡ record self { pool = bounded max_waiting self.pool } }
    {
        Core {
            max_waiting: max_waiting.unwrap_or(usize::MAX),
            ..self
        }
    }

    /// What is true of every core. The call does nothing.
    pub fn laws(&self)
        ensures { IsKept self.now.pool }
    {
        let _ = &self.gets;
    }

    /// Sees that each queue has room for all that may wait in it and all that may be granted what they ask for, an
    /// object or room for one. As the limit stays, no entry is refused for want of memory from then on. Without memory
    /// for that only the room may have changed. A pool with no bound on those that wait never finds it.
    pub fn make_room_for_waiting(&mut self) -> Result<(), AllocError>
        ensures room { OnOk result (HasRoom self.new) }
        ensures wanting { OnErr result (HasRoom self.old → ⊥) }
        ensures same { HasRoom self.old → self.new ≡ self.old }
        ensures gets { self.old.gets_room ≤ self.new.gets_room }
        ensures adds { self.old.adds_room ≤ self.new.adds_room }
        ensures pool { self.new.pool ≡ self.old.pool }
    {
        if self.has_room_for_waiting() {
            return Ok(());
        }
        let most = self.most_listed();
        if most > usize::MAX / 2 {
            return Err(AllocError);
        }
        self.gets.reserve(most)?;
        self.adds.reserve(most)
    }

    /// The earliest get in the queue whose wait has ended, by an object or by the closing, and that was not named
    /// before. It stays in the queue until it asks or cancels. Nothing else changes.
    pub fn take_get_wake(&mut self) -> Option<Ticket>
        ensures takes { TakesGetWake self.old.pool result self.new.pool }
        ensures room { SameRoom self.old self.new }
    {
        self.gets.take_wake()
    }

    /// The earliest add in the queue whose wait has ended, by room or by the closing, and that was not named before. It
    /// stays in the queue until it asks or cancels. Nothing else changes.
    pub fn take_add_wake(&mut self) -> Option<Ticket>
        ensures takes { TakesAddWake self.old.pool result self.new.pool }
        ensures room { SameRoom self.old self.new }
    {
        self.adds.take_wake()
    }

    /// Whether `take_get_wake` or `take_add_wake` would name somebody.
    pub fn is_wake_due(&self) -> bool
        ensures { result ≡ has_due self.now.pool }
    {
        self.gets.is_wake_due() || self.adds.is_wake_due()
    }

    /// Makes one step. The object that it takes or gives is in `hand`. `OutOfMemory` comes only if the queue had no
    /// room left, so never once there is room for all that may wait.
    #[inline(always)]
    pub fn make(&mut self, step: &Step, hand: &mut Option<T>) -> Reply
        requires { Brings step.now hand.old }
        ensures made { Makes self.old step.now hand.old result hand.new self.new }
        ensures fits { IsReplyTo step.now result }
        ensures hand { Leaves result hand.old hand.new }
        ensures room { RoomLasts self.old result self.new }
    {
        let _ = &self.gets;
        match step {
            Step::GetEnter { wait } => self.get_enter(*wait, hand),
            Step::GetAsk { ticket, expired } => self.get_ask(*ticket, *expired, hand),
            Step::GetCancel { ticket } => self.get_cancel(*ticket),
            Step::AddEnter { wait } => self.add_enter(*wait, hand),
            Step::AddAsk { ticket } => self.add_ask(*ticket, hand),
            Step::AddCancel { ticket } => self.add_cancel(*ticket),
            Step::Back => self.back(hand),
            Step::Take => self.take(),
        }
    }

    // It has an object, joins the queue, or is refused.
    #[inline(always)]
    fn get_enter(&mut self, wait: bool, hand: &mut Option<T>) -> Reply
        requires { hand.old ≡ None }
        ensures made { Steps self.old (Step.GetEnter wait) hand.new result self.new }
        ensures hand { Leaves result hand.old hand.new }
    {
        let objects = self.free_objects();
        let may_join = self.get_may_join(wait);
        match self.gets.enter(objects, may_join) {
            Entry::Granted => match take_last(&mut self.idle) {
                Some(value) => {
                    *hand = Some(value);
                    self.outside += 1;
                    Reply::Object
                }
                None => unreachable!(),
            },
            Entry::Closed => Reply::Closed,
            Entry::Full if wait => Reply::Crowded,
            Entry::Full => Reply::Full,
            Entry::Waiting(ticket) => Reply::Waiting(ticket),
            Entry::OutOfMemory => Reply::OutOfMemory,
        }
    }

    // It has an object, stays, or leaves the queue.
    fn get_ask(&mut self, ticket: Ticket, expired: bool, hand: &mut Option<T>) -> Reply
        requires { hand.old ≡ None }
        ensures made { Steps self.old (Step.GetAsk ticket expired) hand.new result self.new }
        ensures hand { Leaves result hand.old hand.new }
    {
        match self.gets.ask(ticket) {
            Ask::Granted => match take_last(&mut self.idle) {
                Some(value) => {
                    *hand = Some(value);
                    self.outside += 1;
                    Reply::Object
                }
                None => Reply::Closed,
            },
            Ask::Closed => Reply::Closed,
            Ask::Unknown => Reply::Unknown,
            Ask::Waiting => {
                if expired {
                    self.gets.withdraw(ticket);
                    Reply::Expired
                } else {
                    Reply::Waiting(ticket)
                }
            }
        }
    }

    // What it was granted goes to the next.
    fn get_cancel(&mut self, ticket: Ticket) -> Reply
        ensures { Steps self.old (Step.GetCancel ticket) None result self.new }
    {
        if let Withdrawn::Unknown = self.gets.withdraw(ticket) {
            return Reply::Unknown;
        }
        self.gets.settle_within(self.idle.len(), 0);
        Reply::Done
    }

    // It leaves its object, joins the queue, or has the object back.
    #[inline(always)]
    fn add_enter(&mut self, wait: bool, hand: &mut Option<T>) -> Reply
        requires { IsSome hand.old }
        ensures made { Steps self.old (Step.AddEnter wait) hand.old result self.new }
        ensures hand { Leaves result hand.old hand.new }
    {
        let room = self.free_room();
        let may_join = self.add_may_join(wait);
        match self.adds.enter(room, may_join) {
            Entry::Granted => {
                store(&mut self.idle, &mut self.gets, hand);
                Reply::Stored
            }
            Entry::Closed => Reply::Closed,
            Entry::Full if wait => Reply::Crowded,
            Entry::Full => Reply::Full,
            Entry::Waiting(ticket) => Reply::Waiting(ticket),
            Entry::OutOfMemory => Reply::OutOfMemory,
        }
    }

    // It leaves its object, stays, or has the object back.
    fn add_ask(&mut self, ticket: Ticket, hand: &mut Option<T>) -> Reply
        requires { IsSome hand.old }
        ensures made { Steps self.old (Step.AddAsk ticket) hand.old result self.new }
        ensures hand { Leaves result hand.old hand.new }
    {
        match self.adds.ask(ticket) {
            Ask::Granted => {
                store(&mut self.idle, &mut self.gets, hand);
                Reply::Stored
            }
            Ask::Closed => Reply::Closed,
            Ask::Waiting => Reply::Waiting(ticket),
            Ask::Unknown => Reply::Unknown,
        }
    }

    // What it was granted goes to the next.
    fn add_cancel(&mut self, ticket: Ticket) -> Reply
        ensures { Steps self.old (Step.AddCancel ticket) None result self.new }
    {
        if let Withdrawn::Unknown = self.adds.withdraw(ticket) {
            return Reply::Unknown;
        }
        self.adds
            .settle_within(self.limit - self.idle.len() - self.outside, 0);
        Reply::Done
    }

    // It is idle, or the pool has no use for it.
    #[inline(always)]
    fn back(&mut self, hand: &mut Option<T>) -> Reply
        requires { IsSome hand.old }
        ensures made { Steps self.old Step.Back hand.old result self.new }
        ensures hand { Leaves result hand.old hand.new }
    {
        if self.outside == 0 {
            return Reply::Unknown;
        }
        self.outside -= 1;
        if self.gets.is_closed() || self.handles == 0 {
            self.adds
                .settle_within(self.limit - self.idle.len() - self.outside, 0);
            return Reply::Dropped;
        }
        store(&mut self.idle, &mut self.gets, hand);
        Reply::Kept
    }

    // Its room is free.
    #[inline(always)]
    fn take(&mut self) -> Reply
        ensures { Steps self.old Step.Take None result self.new }
    {
        if self.outside == 0 {
            return Reply::Unknown;
        }
        self.outside -= 1;
        self.adds
            .settle_within(self.limit - self.idle.len() - self.outside, 0);
        Reply::Taken
    }
}
