//! A core whose steps are counted.
ghost use Rattle.std.specs.Prelude.{◌≡◌, [], nat_lt, option_copied, slice_get};
ghost use Rattle.deadpool_gate.specs.Numbers.{has_number};
ghost use Rattle.deadpool_unmanaged.specs.Adds.{PollsAdd, CancelsAdd};
ghost use Rattle.deadpool_unmanaged.specs.Counts.{counts_of};
ghost use Rattle.deadpool_unmanaged.specs.Gets.{PollsGet, CancelsGet};
ghost use Rattle.deadpool_unmanaged.specs.Replies.{Brings, IsReplyTo, Leaves};
ghost use Rattle.deadpool_unmanaged.specs.State.{bounded, size, status_of};
ghost use Rattle.deadpool_unmanaged.specs.StateSteps.{closed_pool, Clones, DropsHandle, Makes, Upgrades};
ghost use Rattle.deadpool_unmanaged_journal.specs.Tally.{AreBalanced};

use deadpool_unmanaged::gate::Ticket;
use deadpool_unmanaged::{
    AddStage, AddState, Core, Counts, GetStage, GetState, HandleReply, Moment, PoolError, Reply,
    Runtime, Status, Step,
};
use deadpool_unmanaged_journal::{OwnerStep, Tally, laws};
use futures::task::Poll;
use std::marker::Model;

/// A core, and how often each thing has happened in it. Its steps are those of the core, and what is seen of it from
/// outside is the core: the tally is no part of that.
#[derive(Drop)]
pub struct TalliedCore<T> {
    core: Core<T>,
    tally: Tally,
}

impl<T> Model for TalliedCore<T> {
    ghost use Rattle.deadpool_unmanaged.specs.State.{CoreState};

    ghost Value = { CoreState T };

    ghost use Rattle.deadpool_trial.specs.Unmanaged.TalliedFields.{TalliedInvariant};

    ghost view = { λ c. c.core };

    ghost invariant = { TalliedInvariant };
}

// How many objects there are.
fn size_of<T: Drop>(core: &Core<T>) -> usize
    ensures { result ≡ size core.now.pool }
{
    core.counts().size
}

// What is asked of the core.
impl<T: Drop> TalliedCore<T> {
    /// That of a core before its first step.
    pub fn new(core: Core<T>) -> TalliedCore<T>
        requires { size core.pool ≡ 0 }
        ensures { result ≡ core }
    {
        TalliedCore {
            core,
            tally: Tally::new(),
        }
    }

    /// The same with a bound on the gets that wait, and on the adds, or with none, before any waits.
    pub fn bounded(self, max_waiting: Option<usize>) -> Self
        requires gets { self.pool.gets.waiting ≡ [] }
        requires adds { self.pool.adds.waiting ≡ [] }
        ensures { result ≡ record self { pool = bounded max_waiting self.pool } }
    {
        TalliedCore {
            core: self.core.bounded(max_waiting),
            ..self
        }
    }

    /// How often each thing has happened.
    pub fn tally(&self) -> Tally
        ensures { AreBalanced (size self.now.pool) result }
    {
        self.tally
    }

    /// Whether a pool handle is left.
    pub fn has_handle(&self) -> bool
        ensures { result ≡ nat_lt 0 self.now.pool.handles }
    {
        self.core.has_handle()
    }

    /// How the pool stands.
    pub fn status(&self) -> Status
        ensures { result ≡ status_of self.now.pool }
    {
        self.core.status()
    }

    /// What the pool counts.
    pub fn counts(&self) -> Counts
        ensures { result ≡ counts_of self.now.pool }
    {
        self.core.counts()
    }

    /// The idle object at this position. The last is the next to go out.
    pub fn idle_at(&self, at: usize) -> Option<&T>
        ensures { option_copied result ≡ slice_get self.now.pool.idle at }
    {
        self.core.idle_at(at)
    }

    /// Whether the get in the queue with this ticket was granted an object, which it has not taken yet. Nothing
    /// changes.
    pub fn get_is_granted(&mut self, ticket: Ticket) -> bool
        ensures granted { result ≡ has_number ticket self.old.pool.gets.granted }
        ensures same { self.new ≡ self.old }
    {
        self.core.get_is_granted(ticket)
    }

    /// Whether the add in the queue with this ticket was granted room, which it has not taken yet. Nothing changes.
    pub fn add_is_granted(&mut self, ticket: Ticket) -> bool
        ensures granted { result ≡ has_number ticket self.old.pool.adds.granted }
        ensures same { self.new ≡ self.old }
    {
        self.core.add_is_granted(ticket)
    }
}

// What is counted.
impl<T: Drop> TalliedCore<T> {
    /// Makes one step. The object that it takes or gives is in `hand`.
    pub fn make(&mut self, step: &Step, hand: &mut Option<T>) -> Reply
        requires { Brings step.now hand.old }
        ensures made { Makes self.old step.now hand.old result hand.new self.new }
        ensures fits { IsReplyTo step.now result }
        ensures hand { Leaves result hand.old hand.new }
    {
        laws::books_stay_balanced::<T>();
        let reply = self.core.make(step, hand);
        self.tally.count(step, &reply);
        reply
    }

    /// Polls a get, as `GetState::poll` does.
    pub fn poll_get(
        &mut self,
        get: &mut GetState,
        runtime: Option<Runtime>,
        now: Moment,
    ) -> Poll<Result<T, PoolError>>
        ensures { PollsGet runtime now get.old self.old.pool result get.new self.new.pool }
    {
        match get.begin(runtime, now) {
            Ok((step, deadline)) => {
                let mut hand = None;
                let reply = self.make(&step, &mut hand);
                get.end(deadline, reply, hand)
            }
            Err(Some(cause)) => Poll::Ready(Err(cause)),
            Err(None) => Poll::Pending,
        }
    }

    /// Polls an add, as `AddState::poll` does.
    pub fn poll_add(&mut self, add: &mut AddState<T>) -> Poll<Result<(), (T, PoolError)>>
        ensures { PollsAdd add.old self.old.pool result add.new self.new.pool }
    {
        match add.begin() {
            Some((step, value)) => {
                let mut hand = Some(value);
                let reply = self.make(&step, &mut hand);
                add.end(reply, hand)
            }
            None => Poll::Pending,
        }
    }

    /// Gives a get up, as `GetState::cancel` does.
    pub fn cancel_get(&mut self, get: GetState)
        ensures { CancelsGet get self.old.pool self.new.pool }
    {
        match get.stage() {
            GetStage::Queued(ticket, _) => {
                self.make(&Step::GetCancel { ticket: *ticket }, &mut None);
            }
            GetStage::Unpolled(_) | GetStage::Finished => {}
        }
    }

    /// Gives an add up with its object, as `AddState::cancel` does.
    pub fn cancel_add(&mut self, add: AddState<T>)
        ensures { CancelsAdd add self.old.pool self.new.pool }
    {
        match add.stage() {
            AddStage::Queued(ticket, _) => {
                self.make(&Step::AddCancel { ticket: *ticket }, &mut None);
            }
            AddStage::Unpolled(_) | AddStage::Finished => {}
        }
    }

    /// The pool closes for good. The idle objects are dropped.
    pub fn close(&mut self)
        ensures { self.new.pool ≡ closed_pool self.old.pool }
    {
        laws::books_stay_balanced::<T>();
        let size = size_of(&self.core);
        self.core.close();
        let gone = size.saturating_sub(size_of(&self.core));
        self.tally.count_for_owner(&OwnerStep::Close, gone);
    }

    /// There is one more handle.
    pub fn clone_handle(&mut self) -> HandleReply
        ensures { Clones self.old.pool result self.new.pool }
    {
        laws::books_stay_balanced::<T>();
        self.core.clone_handle()
    }

    /// There is one handle less. The last one takes the idle objects with it, which are dropped.
    pub fn drop_handle(&mut self) -> HandleReply
        ensures { DropsHandle self.old.pool result self.new.pool }
    {
        laws::books_stay_balanced::<T>();
        let size = size_of(&self.core);
        let reply = self.core.drop_handle();
        let gone = size.saturating_sub(size_of(&self.core));
        self.tally.count_for_owner(&OwnerStep::DropHandle, gone);
        reply
    }

    /// There is one more handle, for an owner that has none, if one is left.
    pub fn upgrade(&mut self) -> bool
        ensures { Upgrades self.old.pool result self.new.pool }
    {
        laws::books_stay_balanced::<T>();
        self.core.upgrade()
    }
}
