//! A pool's state, beside the steps that led to it.
ghost use Rattle.std.specs.Prelude.{◌≡◌, ◌≤◌, ◌==◌, ◌++◌, [], false, None, IfOk, is_some, length, not, option_copied};
ghost use Rattle.std.specs.Prelude.{slice_get, IsTrue, OnOk, ◌<◌, ◌-◌, ◌^◌, min};
ghost use Rattle.deadpool_gate.specs.Orders.{IsOnce};
ghost use Rattle.deadpool_desk.specs.Closing.{is_drained};
ghost use Rattle.deadpool_desk.specs.CoreState.{HasRoom, listed, most_next_ticket};
ghost use Rattle.deadpool_desk.specs.CoreSteps.{due_now};
ghost use Rattle.deadpool_desk.specs.DeskState.{bounded, new_core, size, would_queue};
ghost use Rattle.deadpool_desk.specs.DeskSteps.{surplus};
ghost use Rattle.deadpool_desk.specs.Settled.{NobodyWaits};
ghost use Rattle.deadpool_journal.specs.Copies.{HasSteps};
ghost use Rattle.deadpool_journal.specs.Kept.{JournalInvariant};
ghost use Rattle.deadpool_journal.specs.LogState.{no_entries};
ghost use Rattle.deadpool_journal.specs.Tally.{AreBalanced, no_tally};
ghost use Rattle.deadpool_journal.specs.Steps.{MakesNoted, MakesForOwnerNoted, RetainsNoted, NotifiesUnnoted};

use crate::log::{Log, number_in};
use crate::tally::Tally;
use crate::{Entry, Journal};
use deadpool_desk::gate::Ticket;
use deadpool_desk::{
    Core, Desk, OwnerDesk, OwnerReply, OwnerStep, QueueMode, Reply, RetainResult, Retainer, Slot,
    Step,
};
use std::alloc::{AllocError, Global};
use std::marker::Model;

/// A pool's state with a journal: at most so many entries, one for each step, and a mark that a step found no room; and
/// a tally of all steps.
///
/// Until the mark is set, the entries, replayed from the state that the pool opened with, are the state, objects by
/// number. Each step is that of `Core`, is counted, and adds its entry, or sets the mark. Of the steps, an entry into
/// the queue, a resize and a retain may take memory, as they do without a journal; the notes of a retain take some too,
/// but not if there is no room for its entry.
#[derive(Drop)]
pub struct Journaled<T> {
    core: Core<T>,
    limit: usize,
    mode: QueueMode,
    min_idle: usize,
    max_waiting: Option<usize>,
    log: Log,
    tally: Tally,
}

impl<T> Model for Journaled<T> {
    ghost use Rattle.deadpool_journal.specs.Journaling.{Journaling};

    ghost Value = { Journaling T };

    ghost use Rattle.deadpool_journal.specs.JournaledFields.{journaling_of};
    ghost use Rattle.deadpool_journal.specs.Kept.{JournalInvariant};

    ghost view = { journaling_of };

    ghost invariant = { λ j. JournalInvariant (journaling_of j) };
}

// How many objects there are.
fn size_of<T: Drop>(core: &Core<T>) -> usize
    ensures { result ≡ size core.now.desk }
{
    core.counts().size
}

impl<T: Drop> Journaled<T> {
    /// A pool with nothing idle and one handle, whose first object gets the number 0, and room for so many entries.
    /// With none the journal takes no memory, and the first step sets the mark. `min_idle` is as in `Core::new`. Any
    /// number of gets may wait.
    pub fn new(
        alloc: Global,
        limit: usize,
        mode: QueueMode,
        most_entries: usize,
        min_idle: usize,
    ) -> Result<Journaled<T>, AllocError>
        ensures desk { IfOk result (λ j. j.core.desk ≡ new_core limit mode 0 min_idle) }
        ensures max_waiting { IfOk result (λ j. j.max_waiting ≡ None) }
        ensures unnotified { IfOk result (λ j. j.core.unnotified ≡ []) }
        ensures limit { IfOk result (λ j. j.limit ≡ limit) }
        ensures mode { IfOk result (λ j. j.mode ≡ mode) }
        ensures min_idle { IfOk result (λ j. j.min_idle ≡ min_idle) }
        ensures log { IfOk result (λ j. j.log ≡ no_entries most_entries) }
        ensures tally { IfOk result (λ j. j.tally ≡ no_tally) }
    {
        let core = Core::new(alloc, limit, mode, 0, min_idle)?;
        let log = Log::new(alloc, most_entries)?;
        let tally = Tally::new();
        Ok(Journaled {
            core,
            limit,
            mode,
            min_idle,
            max_waiting: None,
            log,
            tally,
        })
    }

    /// The pool, before its first step, with a bound on the gets that wait for a place, or with none.
    pub fn bounded(self, max_waiting: Option<usize>) -> Self
        requires entries { self.log.entries ≡ [] }
        requires full { self.log.is_full ≡ false }
        ensures { result ≡ record self {
          core = record self.core { desk = bounded max_waiting self.core.desk };
          max_waiting = max_waiting;
        } }
    {
        Journaled {
            core: self.core.bounded(max_waiting),
            max_waiting,
            ..self
        }
    }

    /// A copy of the journal. It is no step.
    pub fn journal(&self) -> Result<Journal, AllocError>
        ensures limit { IfOk result (λ journal. journal.limit ≡ self.now.limit) }
        ensures mode { IfOk result (λ journal. journal.mode ≡ self.now.mode) }
        ensures min_idle { IfOk result (λ journal. journal.min_idle ≡ self.now.min_idle) }
        ensures max_waiting { IfOk result (λ journal. journal.max_waiting ≡ self.now.max_waiting) }
        ensures entries { IfOk result (λ journal. journal.entries.items ≡ self.now.log.entries) }
        ensures full { IfOk result (λ journal. journal.full ≡ self.now.log.is_full) }
        ensures steps { IfOk result HasSteps }
    {
        Ok(Journal {
            limit: self.limit,
            mode: self.mode,
            min_idle: self.min_idle,
            max_waiting: self.max_waiting,
            entries: self.log.entries()?,
            full: self.log.is_full(),
        })
    }

    /// The entry at this position of the journal. It is no step.
    pub fn entry(&self, at: usize) -> Option<&Entry>
        ensures { option_copied result ≡ slice_get self.now.log.entries at }
    {
        self.log.entry(at)
    }

    /// Whether a step has found no room for its entry. It is no step.
    pub fn is_full(&self) -> bool
        ensures { result ≡ self.now.log.is_full }
    {
        self.log.is_full()
    }

    /// What is true of every state with its journal. The call does nothing.
    pub fn laws(&self)
        ensures kept { JournalInvariant self.now }
        ensures balances { AreBalanced (size self.now.core.desk) self.now.tally }
        ensures nobody_waits { NobodyWaits self.now.core.desk }
        ensures few { length self.now.core.desk.waiting ≤ self.now.core.desk.max_waiting }
        ensures within { length self.now.core.desk.idle ≤ self.now.core.desk.limit }
        ensures once { IsOnce (self.now.core.desk.granted ++ self.now.core.desk.waiting) }
    {
        self.core.laws();
    }

    /// Whether the pool has closed. It is no step.
    pub fn is_closed(&self) -> bool
        ensures { result ≡ not self.now.core.desk.is_open }
    {
        self.core.is_closed()
    }

    /// Whether the pool has closed and nothing is left in it. It is no step.
    pub fn is_drained(&self) -> bool
        ensures { result ≡ is_drained self.now.core.desk }
    {
        self.core.is_drained()
    }

    /// Whether just one pool handle is left, which takes the idle objects with it. It is no step.
    pub fn is_last_handle(&self) -> bool
        ensures { result ≡ (self.now.core.desk.handles == 1) }
    {
        self.core.is_last_handle()
    }

    /// The idle object at this position, front to back. It is no step.
    pub fn idle_at(&self, at: usize) -> Option<&Slot<T>>
        ensures { option_copied result ≡ slice_get self.now.core.desk.idle at }
    {
        self.core.idle_at(at)
    }

    /// How many idle objects a resize to this limit gives up: those at the front. It is no step.
    pub fn surplus(&self, limit: usize) -> usize
        ensures { result ≡ surplus limit self.now.core.desk }
    {
        self.core.surplus(limit)
    }

    /// Whether a get that enters now, and is willing to wait, has to join the queue. It is no step.
    pub fn would_queue(&self) -> bool
        ensures would { result ≡ would_queue self.now.core.desk }
        ensures room { IsTrue result → HasRoom self.now.core
            → listed self.now.core < min self.now.core.queue_room (2 ^ 63 - 1) }
    {
        self.core.would_queue()
    }

    /// The greatest number that the ticket of the next get in the queue may have. It is no step.
    pub fn most_next_ticket(&self) -> usize
        ensures { result ≡ most_next_ticket self.now.core }
    {
        self.core.most_next_ticket()
    }

    /// How many gets the queue can list before it has to find memory. It is no step.
    pub fn queue_room(&self) -> usize
        ensures { result ≡ self.now.core.queue_room }
    {
        self.core.queue_room()
    }

    /// Sees that the queue has room for all gets that may wait in it and all that may be granted a place. It is no
    /// step. Without memory for that only the room may have changed.
    pub fn make_room_for_waiting(&mut self) -> Result<(), AllocError>
        ensures room { OnOk result (HasRoom self.new.core) }
        ensures kept { self.old.core.queue_room ≤ self.new.core.queue_room }
        ensures same { self.new ≡ record self.old { core = self.new.core } }
        ensures desk { self.new.core.desk ≡ self.old.core.desk }
        ensures unnotified { self.new.core.unnotified ≡ self.old.core.unnotified }
    {
        self.core.make_room_for_waiting()
    }

    /// How often each thing has happened since the pool was opened. It is no step.
    pub fn tally(&self) -> Tally
        ensures tally { result ≡ self.now.tally }
        ensures balances { AreBalanced (size self.now.core.desk) result }
    {
        self.tally
    }

    /// The next get in the queue that is due to be woken, and that was not named before. It is no step, and nothing is
    /// noted.
    pub fn take_wake(&mut self) -> Option<Ticket>
        ensures { NotifiesUnnoted self.old result self.new }
    {
        self.core.take_wake()
    }

    /// Whether `take_wake` would name a get. It is no step.
    pub fn is_wake_due(&self) -> bool
        ensures { result ≡ is_some (due_now self.now.core) }
    {
        self.core.is_wake_due()
    }
}

impl<T: Drop> Desk<T> for Journaled<T> {
    ghost makes = { MakesNoted };

    #[inline(always)]
    fn make(&mut self, step: &Step, hand: &mut Option<Slot<T>>) -> Reply {
        let taken = number_in(hand);
        let reply = self.core.make(step, hand);
        self.log.add_step(step, taken, hand, &reply);
        self.tally.count(step, &reply);
        reply
    }
}

impl<T: Drop> OwnerDesk<T> for Journaled<T> {
    ghost makes = { MakesForOwnerNoted };

    ghost retains = { λ R L asks. RetainsNoted asks };

    #[inline(always)]
    fn make_for_owner(&mut self, step: &OwnerStep) -> OwnerReply {
        let size = size_of(&self.core);
        let reply = self.core.make_for_owner(step);
        self.log.add_owner_step(step, &reply);
        let gone = size.saturating_sub(size_of(&self.core));
        self.tally.count_for_owner(step, gone);
        reply
    }

    fn retain<R: Retainer<T>>(
        &mut self,
        retainer: &mut R,
    ) -> Result<RetainResult<R::Left>, AllocError> {
        let size = size_of(&self.core);
        if !self.log.has_room() {
            self.log.mark_full();
            let result = self.core.retain(retainer);
            let gone = size.saturating_sub(size_of(&self.core));
            self.tally.count_retain(&result, gone);
            return result;
        }
        match self.core.retain_noting(retainer) {
            Ok((result, noted)) => {
                self.log.add(Entry::Retain(Ok(noted)));
                let fewer = size.saturating_sub(size_of(&self.core));
                self.tally.count_not_retained(fewer);
                Ok(result)
            }
            Err(e) => {
                self.log.add(Entry::Retain(Err(e)));
                Err(e)
            }
        }
    }
}
