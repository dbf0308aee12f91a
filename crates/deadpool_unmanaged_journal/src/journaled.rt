//! A pool's state, beside the steps that led to it.
ghost use Rattle.std.specs.Prelude.{◌≡◌, ◌↔◌, ◌-◌, ◌<◌, [], None, IfOk, IsTrue, OnErr, OnOk, false, nat_lt, not};
ghost use Rattle.std.specs.Prelude.{option_copied, slice_get};
ghost use Rattle.deadpool_unmanaged.specs.Closing.{is_drained};
ghost use Rattle.deadpool_unmanaged.specs.Kept as pools;
ghost use Rattle.deadpool_unmanaged.specs.Replies.{Brings, IsReplyTo, Leaves};
ghost use Rattle.deadpool_unmanaged.specs.Room.{HasRoom, RoomLasts, SameRoom, most_next_add, most_next_get};
ghost use Rattle.deadpool_unmanaged.specs.State.{add_would_queue, bounded, get_would_queue, has_due, opened};
ghost use Rattle.deadpool_unmanaged.specs.State.{listed, size};
ghost use Rattle.deadpool_unmanaged_journal.specs.ByName.{name_in};
ghost use Rattle.deadpool_unmanaged_journal.specs.Copies.{HasSteps};
ghost use Rattle.deadpool_unmanaged_journal.specs.Kept.{JournalInvariant};
ghost use Rattle.deadpool_unmanaged_journal.specs.LogState.{no_entries};
ghost use Rattle.deadpool_unmanaged_journal.specs.OwnerSteps.{DoesForOwner, IsOwnerReplyTo};
ghost use Rattle.deadpool_unmanaged_journal.specs.Steps.{MakesNoted, MakesForOwnerNoted};
ghost use Rattle.deadpool_unmanaged_journal.specs.Steps.{TellsAddUnnoted, TellsGetUnnoted};
ghost use Rattle.deadpool_unmanaged_journal.specs.Tally.{AreBalanced, no_tally};

use crate::log::Log;
use crate::tally::Tally;
use crate::{Entry, Journal, Naming, OwnerReply, OwnerStep};
use deadpool_unmanaged::gate::Ticket;
use deadpool_unmanaged::{Core, Reply, Step};
use std::alloc::{AllocError, Global};
use std::marker::{Model, PhantomData};

/// A pool's state with a journal: at most so many entries, one for each step, and a mark that a step found no room; and
/// a tally of all steps. `K` says what stands for an object in the journal.
///
/// Until the mark is set, the entries, replayed from the state that the pool opened with, are the state, objects by
/// name. Whom the pool has told is not looked at. Each step is that of `Core`, is counted, and adds its entry, or sets
/// the mark.
#[derive(Drop)]
pub struct Journaled<T, K: Naming<T>> {
    core: Core<T>,
    limit: usize,
    max_waiting: Option<usize>,
    log: Log<K::Name>,
    tally: Tally,
    by: PhantomData<K>,
}

impl<T, K: Naming<T>> Model for Journaled<T, K> {
    ghost use Rattle.deadpool_unmanaged_journal.specs.Journaling.{Journaling};

    ghost Value = { Journaling T K.Name };

    ghost use Rattle.deadpool_unmanaged_journal.specs.JournaledFields.{journaling_of};
    ghost use Rattle.deadpool_unmanaged_journal.specs.Kept.{JournalInvariant};

    ghost view = { journaling_of };

    ghost invariant = { λ j. JournalInvariant K.name_of (journaling_of j) };
}

impl<T: Drop, K: Naming<T>> Journaled<T, K> {
    /// An open pool with nothing idle and one handle, and room for so many entries. With none the journal takes no
    /// memory, and the first step sets the mark. Any number of gets and adds may wait.
    pub fn new(alloc: Global, max_size: usize, most_entries: usize) -> Result<Self, AllocError>
        ensures pool { IfOk result (λ j. j.core.pool ≡ opened max_size []) }
        ensures limit { IfOk result (λ j. j.limit ≡ max_size) }
        ensures max_waiting { IfOk result (λ j. j.max_waiting ≡ None) }
        ensures log { IfOk result (λ j. j.log ≡ no_entries most_entries) }
        ensures tally { IfOk result (λ j. j.tally ≡ no_tally) }
    {
        let core = Core::new(alloc, max_size)?;
        let log = Log::new(alloc, most_entries)?;
        let tally = Tally::new();
        Ok(Journaled {
            core,
            limit: max_size,
            max_waiting: None,
            log,
            tally,
            by: PhantomData,
        })
    }

    /// The pool, before its first step, with a bound on the gets that wait, and on the adds, or with none.
    pub fn bounded(self, max_waiting: Option<usize>) -> Self
        requires gets { self.core.pool.gets.waiting ≡ [] }
        requires adds { self.core.pool.adds.waiting ≡ [] }
        requires entries { self.log.entries ≡ [] }
        requires full { self.log.is_full ≡ false }
        ensures { result ≡ record self {
          core = record self.core { pool = bounded max_waiting self.core.pool };
          max_waiting = max_waiting;
        } }
    {
        Journaled {
            core: self.core.bounded(max_waiting),
            max_waiting,
            ..self
        }
    }

    /// Makes one step of a get, an add or an object, as `Core` does, notes it, and counts it.
    #[inline(always)]
    pub fn make(&mut self, step: &Step, hand: &mut Option<T>) -> Reply
        requires { Brings step.now hand.old }
        ensures made { MakesNoted K.name_of self.old step.now hand.old result hand.new self.new }
        ensures fits { IsReplyTo step.now result }
        ensures hand { Leaves result hand.old hand.new }
        ensures room { RoomLasts self.old.core result self.new.core }
    {
        let taken = name_in::<T, K>(hand);
        let reply = self.core.make(step, hand);
        let object = taken.or(name_in::<T, K>(hand));
        self.log.add_step(step, object, &reply);
        self.tally.count(step, &reply);
        reply
    }

    /// Makes a step of the pool's owner, notes it, and counts it.
    pub fn make_for_owner(&mut self, step: &OwnerStep) -> OwnerReply
        ensures made { MakesForOwnerNoted self.old step.now result self.new }
        ensures fits { IsOwnerReplyTo step.now result }
        ensures room { SameRoom self.old.core self.new.core }
    {
        let (reply, gone) = make_counting(&mut self.core, step);
        self.log.add_owner_step(step, &reply);
        self.tally.count_for_owner(step, gone);
        reply
    }

    /// A copy of the journal. It is no step.
    pub fn journal(&self) -> Result<Journal<K::Name>, AllocError>
        ensures limit { IfOk result (λ journal. journal.limit ≡ self.now.limit) }
        ensures max_waiting { IfOk result (λ journal. journal.max_waiting ≡ self.now.max_waiting) }
        ensures entries { IfOk result (λ journal. journal.entries.items ≡ self.now.log.entries) }
        ensures full { IfOk result (λ journal. journal.full ≡ self.now.log.is_full) }
        ensures steps { IfOk result HasSteps }
    {
        Ok(Journal {
            limit: self.limit,
            max_waiting: self.max_waiting,
            entries: self.log.entries()?,
            full: self.log.is_full(),
        })
    }

    /// The entry at this position of the journal. It is no step.
    pub fn entry(&self, at: usize) -> Option<&Entry<K::Name>>
        ensures { option_copied result ≡ slice_get self.now.log.entries at }
    {
        self.log.entry(at)
    }

    /// Whether a step has found no room for its entry. It is no step.
    pub fn is_full(&self) -> bool
        ensures { result ≡ self.now.log.is_full }
    {
        self.log.is_full()
    }

    /// What is true of every state with its journal. The call does nothing.
    pub fn laws(&self)
        ensures kept { JournalInvariant K.name_of self.now }
        ensures balances { AreBalanced (size self.now.core.pool) self.now.tally }
        ensures pool { pools.IsKept self.now.core.pool }
    {
        self.core.laws();
    }

    /// Whether the pool was closed. It is no step.
    pub fn is_closed(&self) -> bool
        ensures { result ≡ not self.now.core.pool.is_open }
    {
        self.core.is_closed()
    }

    /// Whether the pool was closed and no object is left, idle or out. It is no step.
    pub fn is_drained(&self) -> bool
        ensures { result ≡ is_drained self.now.core.pool }
    {
        self.core.is_drained()
    }

    /// Whether a pool handle is left. It is no step.
    pub fn has_handle(&self) -> bool
        ensures { result ≡ nat_lt 0 self.now.core.pool.handles }
    {
        self.core.has_handle()
    }

    /// Whether a get that enters now and wants to wait joins the queue. It is no step.
    pub fn get_would_queue(&self) -> bool
        ensures would { result ≡ get_would_queue self.now.core.pool }
        ensures room { IsTrue result → HasRoom self.now.core
            → listed self.now.core.pool.gets < self.now.core.gets_room }
    {
        self.core.get_would_queue()
    }

    /// Whether an add that enters now and wants to wait joins the queue. It is no step.
    pub fn add_would_queue(&self) -> bool
        ensures would { result ≡ add_would_queue self.now.core.pool }
        ensures room { IsTrue result → HasRoom self.now.core
            → listed self.now.core.pool.adds < self.now.core.adds_room }
    {
        self.core.add_would_queue()
    }

    /// The greatest number that the ticket of the next get in the queue may have. It is no step.
    pub fn most_next_get(&self) -> usize
        ensures { result ≡ most_next_get self.now.core }
    {
        self.core.most_next_get()
    }

    /// The greatest number that the ticket of the next add in the queue may have. It is no step.
    pub fn most_next_add(&self) -> usize
        ensures { result ≡ most_next_add self.now.core }
    {
        self.core.most_next_add()
    }

    /// How many gets the queue has room for. It is no step.
    pub fn gets_room(&self) -> usize
        ensures { result ≡ self.now.core.gets_room }
    {
        self.core.gets_room()
    }

    /// How many adds the queue has room for. It is no step.
    pub fn adds_room(&self) -> usize
        ensures { result ≡ self.now.core.adds_room }
    {
        self.core.adds_room()
    }

    /// Whether each queue has room for all that may wait in it and all that may be granted what they ask for. It is no
    /// step.
    pub fn has_room_for_waiting(&self) -> bool
        ensures { IsTrue result ↔ HasRoom self.now.core }
    {
        self.core.has_room_for_waiting()
    }

    /// Sees that each queue has that room. Without memory for it only the room may have changed. It is no step, and
    /// nothing is noted.
    pub fn make_room_for_waiting(&mut self) -> Result<(), AllocError>
        ensures room { OnOk result (HasRoom self.new.core) }
        ensures wanting { OnErr result (HasRoom self.old.core → ⊥) }
        ensures same { HasRoom self.old.core → self.new ≡ self.old }
        ensures pool { self.new.core.pool ≡ self.old.core.pool }
        ensures others { self.new ≡ record self.old { core = self.new.core } }
    {
        self.core.make_room_for_waiting()
    }

    /// How often each thing has happened since the pool was opened. It is no step.
    pub fn tally(&self) -> Tally
        ensures tally { result ≡ self.now.tally }
        ensures balances { AreBalanced (size self.now.core.pool) result }
    {
        self.tally
    }

    /// The next get in the queue that is due to be woken. It is no step, and nothing is noted.
    pub fn take_get_wake(&mut self) -> Option<Ticket>
        ensures tells { TellsGetUnnoted self.old result self.new }
        ensures room { SameRoom self.old.core self.new.core }
    {
        self.core.take_get_wake()
    }

    /// The next add in the queue that is due to be woken. It is no step, and nothing is noted.
    pub fn take_add_wake(&mut self) -> Option<Ticket>
        ensures tells { TellsAddUnnoted self.old result self.new }
        ensures room { SameRoom self.old.core self.new.core }
    {
        self.core.take_add_wake()
    }

    /// Whether `take_get_wake` or `take_add_wake` would name somebody. It is no step.
    pub fn is_wake_due(&self) -> bool
        ensures { result ≡ has_due self.now.core.pool }
    {
        self.core.is_wake_due()
    }
}

// Makes a step of the owner, and says how many objects go by it. Those are counted only where some may.
fn make_counting<T: Drop>(core: &mut Core<T>, step: &OwnerStep) -> (OwnerReply, usize)
    ensures made { DoesForOwner core.old.pool step.now result.0 core.new.pool }
    ensures fits { IsOwnerReplyTo step.now result.0 }
    ensures gone { result.1 ≡ size core.old.pool - size core.new.pool }
    ensures room { SameRoom core.old core.new }
{
    match step {
        OwnerStep::Close | OwnerStep::DropHandle => {
            let size = core.counts().size;
            let reply = step.make(core);
            (reply, size.saturating_sub(core.counts().size))
        }
        OwnerStep::Status | OwnerStep::CloneHandle | OwnerStep::Upgrade => (step.make(core), 0),
    }
}

// The name of the object in a hand.
#[inline(always)]
fn name_in<T, K: Naming<T>>(hand: &Option<T>) -> Option<K::Name>
    ensures { result ≡ name_in K.name_of hand.now }
{
    match hand {
        Some(value) => Some(K::name(value)),
        None => None,
    }
}
