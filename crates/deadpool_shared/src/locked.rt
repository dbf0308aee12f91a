//! What the lock of a pool keeps.
ghost use Rattle.std.specs.Prelude.{◌≡◌, ◌⊎◌, ◌||◌, true, false, not, is_some, nat_lt, [], ◌∷◌, None, ◌≤◌};
ghost use Rattle.std.specs.Prelude.{IfOk, IfSome, OnOk};
ghost use Rattle.std.specs.Option.{option_or};
ghost use mathlib.Core.List.{IsPrefix};
ghost use Rattle.deadpool_chronicle.specs.History.{SeesMore, calls_by};
ghost use Rattle.deadpool_desk.specs.CoreSteps.{due_now};
ghost use Rattle.deadpool_desk.specs.Replies.{Brings, IsOwnerReplyTo, IsReplyTo, Leaves, left_by, named};
ghost use Rattle.deadpool_desk.specs.Replies.{needed};
ghost use Rattle.deadpool_desk.specs.declared.owner_step.OwnerReply.TheVariants as reply;
ghost use Rattle.deadpool_desk.specs.declared.owner_step.OwnerStep.TheVariants as step;
ghost use Rattle.deadpool_desk.specs.declared.step.Reply.TheVariants.{OutOfMemory};
ghost use Rattle.deadpool_history.specs.History.{AllAreTold, HasCalled, IsBeginning, IsLegal, IsRetain};
ghost use Rattle.deadpool_history.specs.History.{IsTallyOf};
ghost use Rattle.deadpool_history.specs.Retains.{AnswersFor};
ghost use Rattle.deadpool_history.specs.declared.line.Line.TheVariants as line;
ghost use Rattle.deadpool_journal.specs.ByNumber.{number_in, numbered};
ghost use Rattle.deadpool_journal.specs.Copies.{HasSteps};
ghost use Rattle.deadpool_journal.specs.Journaling.{opening};
ghost use Rattle.deadpool_journal.specs.LogState.{no_entries};
ghost use Rattle.deadpool_journal.specs.Steps.{MakesNoted, MakesForOwnerNoted, RetainsNoted};
ghost use Rattle.deadpool_journal.specs.Tally.{AreBalanced};
ghost use Rattle.deadpool_journal.specs.declared.entry.Entry.TheVariants as entry;
ghost use Rattle.deadpool_history.specs.Own.{held_in, waits_in};
ghost use Rattle.deadpool_turns.specs.Holders.{IsOwn};
ghost use Rattle.deadpool_turns.specs.Tickets.{IsNamed};
ghost use Rattle.deadpool_shared.specs.Calling.{CallsOrRefuses};
ghost use Rattle.deadpool_shared.specs.Counts.{AreIn, IsKnown, IsNewCaller, IsNewHolder};
ghost use Rattle.deadpool_shared.specs.Counts.{counts, counts_of, counted, shifted};
ghost use Rattle.deadpool_lock.specs.Ends.{Departs, one_less};
ghost use Rattle.deadpool_shared.specs.Locked.{HasRoomFor, IsCopy, MakesLocked, TellsLocked, awaited_by};
ghost use Rattle.deadpool_shared.specs.Locked.{is_end_due, joins};
ghost use Rattle.deadpool_shared.specs.Locked.{lets_go};

mod draining;

use crate::ledgers::{Blanks, History, Ledgers};
use crate::shares::{Books, Shares};
use crate::steps::{left_by, lets_go, may_wait, needed, ticket_after, ticket_of};
use deadpool_chronicle::{Beginning, Caller};
use deadpool_history::{Line, Recorded};
use deadpool_journal::{Journal, Journaled, Tally};
use deadpool_lock::{Departed, Departure, Ends, Owed, Registered, Wakers, Wakes};
use deadpool_managed::{
    Desk, OwnerDesk, OwnerReply, OwnerStep, Reply, RetainResult, Retainer, Slot, Status, Step,
};
use futures::task::Waker;
use std::alloc::{AllocError, Global};

/// A pool's state with its journal and its history, the first caller, which lets the others in, the books whose totals
/// are the pool's three counts, and the wakers of those in its queue.
#[derive(Drop)]
pub struct Locked<T, L: Ledgers> {
    recorded: Recorded<T, History<L>>,
    first: Caller<Line, History<L>>,
    books: Books<L>,
    wakers: Wakers,
    // Those that wait for the end of the pool.
    ends: Ends,
    ghost counted: { counted recorded.pool ≡ books.totals },
}

impl<T: Drop, L: Ledgers> Locked<T, L> {
    /// A state that nobody holds anything of, with all parts of three new ledgers, and the beginning of its history,
    /// which says how it opened.
    pub fn new(
        alloc: Global,
        pool: Journaled<T>,
        blanks: Blanks,
    ) -> (Locked<T, L>, Beginning<Line, History<L>>)
        requires empty { counted pool ≡ counts 0 0 0 }
        requires opened { numbered pool.core.desk ≡ opening pool }
        requires unnotified { pool.core.unnotified ≡ [] }
        requires unnoted { pool.log ≡ no_entries pool.log.most }
        requires opens { blanks ≡ L.names }
        ensures pool { result.0.recorded.pool ≡ pool }
        ensures log { result.0.recorded.log
            ≡ (0, line.Opening pool.limit pool.mode pool.min_idle pool.max_waiting) ∷ [] }
        ensures opening { result.1.log ≡ result.0.recorded.log }
        ensures left { result.0.books.left ≡ u64.MAX }
        ensures wakers { result.0.wakers ≡ [] }
        ensures departing { result.0.ends.departing ≡ 0 }
    {
        let (ledgers, history) = blanks.into_parts();
        let (author, mut first) = history.open::<Line, History<L>>();
        let (recorded, opening) = Recorded::new(pool, author, &mut first);
        let locked = Locked {
            recorded,
            first,
            books: Books::new(ledgers),
            wakers: Wakers::new(alloc),
            ends: Ends::new(alloc),
        };
        (locked, opening)
    }

    /// Sees that there is room in the queue for all gets that may wait, and a place for the waker of each. It is no
    /// step. Without memory for that only the room may have changed.
    pub fn make_room_for_waiting(&mut self) -> Result<(), AllocError>
        ensures room { OnOk result (HasRoomFor self.new.recorded.pool self.new.wakers) }
        ensures desk { self.new.recorded.pool.core.desk ≡ self.old.recorded.pool.core.desk }
        ensures log { self.new.recorded.log ≡ self.old.recorded.log }
        ensures ends { self.new.ends ≡ self.old.ends }
    {
        let Locked {
            recorded,
            wakers,
            ..
        } = self;
        recorded.make_room_for_waiting()?;
        wakers.make_places(recorded.queue_room())
    }

    /// Shares for a new get, if a part of each ledger is left, with a caller that has made no step yet. It is no step.
    pub fn hand_out(&mut self) -> Option<Shares<L>>
        ensures shares { IfSome result IsNewHolder }
        ensures given { is_some result ≡ nat_lt 0 self.old.books.left }
        ensures recorded { self.new.recorded ≡ self.old.recorded }
        ensures wakers { self.new.wakers ≡ self.old.wakers }
        ensures ends { self.new.ends ≡ self.old.ends }
    {
        let caller = self.admit();
        let Locked { books, .. } = self;
        books.hand_out(caller)
    }

    /// The history begins with what was seen earlier, and has of a caller what the caller has, which has then seen all
    /// of it. It is no step.
    pub fn audit(
        &mut self,
        caller: &mut Caller<Line, History<L>>,
        earlier: &Beginning<Line, History<L>>,
    )
        ensures recorded { self.new.recorded ≡ self.old.recorded }
        ensures wakers { self.new.wakers ≡ self.old.wakers }
        ensures ends { self.new.ends ≡ self.old.ends }
        ensures caller { caller.new
            ≡ record caller.old { seen = self.old.recorded.log } }
        ensures seen { IsPrefix caller.old.seen caller.new.seen }
        ensures earlier { IsPrefix earlier.now.log caller.new.seen }
        ensures legal { IsLegal caller.new.seen }
        ensures mine { calls_by caller.old.number caller.new.seen ≡ caller.old.mine }
    {
        let Locked { recorded, .. } = self;
        recorded.above(earlier);
        recorded.audit(caller);
    }

    /// A caller that has made no step yet. It is no step.
    pub fn admit(&mut self) -> Caller<Line, History<L>>
        ensures caller { IsNewCaller result }
        ensures seen { result.seen ≡ self.old.recorded.log }
        ensures recorded { self.new.recorded ≡ self.old.recorded }
        ensures books { self.new.books ≡ self.old.books }
        ensures wakers { self.new.wakers ≡ self.old.wakers }
        ensures ends { self.new.ends ≡ self.old.ends }
    {
        let Locked {
            recorded,
            first,
            ..
        } = self;
        recorded.admit(first)
    }

    /// A caller that has made no step yet, and has seen what was seen earlier. It is no step.
    pub fn admit_after(&mut self, earlier: &Beginning<Line, History<L>>) -> Caller<Line, History<L>>
        ensures caller { IsNewCaller result }
        ensures earlier { IsPrefix earlier.now.log result.seen }
        ensures recorded { self.new.recorded ≡ self.old.recorded }
        ensures wakers { self.new.wakers ≡ self.old.wakers }
        ensures ends { self.new.ends ≡ self.old.ends }
    {
        let mut caller = self.admit();
        self.audit(&mut caller, earlier);
        caller
    }

    /// Makes a step of a get or an object, whose shares are those of what it holds, and gives the reply. It has the
    /// object that it gives away, and waits under the ticket that it names, by the lines of its caller. So the pool
    /// knows both. A get that would be queued makes no step if there is no memory for its waker, or nobody's is there.
    /// If it is queued its waker is kept; the one that was kept and is not any more is given out. What the step lets go
    /// of counts as departing from then on.
    #[inline(always)]
    pub fn make(
        &mut self,
        shares: &mut Shares<L>,
        step: &Step,
        hand: &mut Option<Slot<T>>,
        registered: &mut Registered,
        departure: &mut Option<Departure>,
    ) -> (Reply, Option<Waker>)
        requires brings { Brings step.now hand.old }
        requires shares { shares.old.has ≡ counts_of (needed step.now) }
        requires own { IsOwn step.now (number_in hand.old) (held_in shares.old.caller.mine) }
        requires named { IsNamed (named step.now) (waits_in shares.old.caller.mine) }
        ensures holds { shares.new.has ≡ counts_of (left_by step.now result.0) }
        ensures known { IsKnown result.0 }
        ensures fits { IsReplyTo step.now result.0 }
        ensures hand { Leaves result.0 hand.old hand.new }
        ensures made { MakesLocked self.old.recorded.pool self.old.wakers
            step.now hand.old registered.old result.0 hand.new
            self.new.recorded.pool self.new.wakers registered.new result.1 }
        ensures heard { joins step.now self.old.recorded.pool ≡ true
            → (result.0 ≡ OutOfMemory) ⊎ (is_some registered.old ≡ true) }
        ensures call { CallsOrRefuses step.now (number_in (option_or hand.old hand.new)) result.0
            shares.old.caller shares.new.caller }
        ensures roomy { HasRoomFor self.old.recorded.pool self.old.wakers
            → result.0 ≡ OutOfMemory → is_some registered.old ≡ false }
        ensures keeps_room { HasRoomFor self.old.recorded.pool self.old.wakers
            → HasRoomFor self.new.recorded.pool self.new.wakers }
        ensures departs { Departs (lets_go step.now result.0)
            self.old.ends departure.old self.new.ends departure.new }
    {
        let Locked {
            recorded,
            books,
            wakers,
            ends,
            ..
        } = self;
        if may_wait(step)
            && recorded.would_queue()
            && wakers
                .make_room(recorded.most_next_ticket(), registered)
                .is_err()
        {
            return (Reply::OutOfMemory, None);
        }
        books.audit(shares);
        let reply = make_counted(recorded, &mut shares.caller, step, hand);
        books.shift(shares, needed(step), left_by(step, &reply));
        depart(ends, departure, lets_go(step, &reply));
        let spare = wakers.follow(ticket_of(step), ticket_after(&reply), registered);
        (reply, spare)
    }

    /// Makes a step of the pool's owner, and gives the reply. No get's waker comes or goes with it.
    #[inline(always)]
    pub fn make_for_owner(
        &mut self,
        caller: &mut Caller<Line, History<L>>,
        step: &OwnerStep,
    ) -> OwnerReply
        ensures made { MakesForOwnerNoted self.old.recorded.pool step.now result
            self.new.recorded.pool }
        ensures fits { IsOwnerReplyTo step.now result }
        ensures wakers { self.new.wakers ≡ self.old.wakers }
        ensures ends { self.new.ends ≡ self.old.ends }
        ensures call { HasCalled (λ e. e ≡ entry.Owner step.now result) caller.old caller.new }
        ensures keeps_room { HasRoomFor self.old.recorded.pool self.old.wakers
            → self.new.recorded.pool.core.desk.reserve ≤ self.old.recorded.pool.core.desk.reserve
            → HasRoomFor self.new.recorded.pool self.new.wakers }
    {
        let Locked { recorded, .. } = self;
        recorded.make_for_owner(caller, step)
    }

    /// Asks `retainer` about each idle object, and gives out what it left of those that were removed and how many
    /// objects stay. If there was no memory for what it leaves, all stay.
    pub fn retain<R: Retainer<T>>(
        &mut self,
        caller: &mut Caller<Line, History<L>>,
        retainer: &mut R,
    ) -> Result<RetainResult<R::Left>, AllocError>
        requires { R.can_call retainer.old }
        ensures can_call { R.can_call retainer.new }
        ensures retained { RetainsNoted R.Retainer
            self.old.recorded.pool retainer.old result self.new.recorded.pool retainer.new }
        ensures wakers { self.new.wakers ≡ self.old.wakers }
        ensures ends { self.new.ends ≡ self.old.ends }
        ensures call { HasCalled (IsRetain result) caller.old caller.new }
        ensures which { HasCalled (AnswersFor R.Retainer result caller.new.seen)
            caller.old caller.new }
        ensures keeps_room { HasRoomFor self.old.recorded.pool self.old.wakers
            → HasRoomFor self.new.recorded.pool self.new.wakers }
    {
        let Locked { recorded, .. } = self;
        recorded.retain(caller, retainer)
    }

    /// How often each thing has happened since the pool was opened, and how the pool stands now. No waker comes or goes
    /// with it.
    pub fn tally(&mut self, caller: &mut Caller<Line, History<L>>) -> (Tally, Status)
        ensures wakers { self.new.wakers ≡ self.old.wakers }
        ensures ends { self.new.ends ≡ self.old.ends }
        ensures call { HasCalled (λ e. e ≡ entry.Owner step.Status (reply.Stands result.1))
            caller.old caller.new }
        ensures counted { IsTallyOf caller.new.seen result.0 }
        ensures balances { AreBalanced result.1.size result.0 }
    {
        let Locked { recorded, .. } = self;
        match recorded.make_for_owner(caller, &OwnerStep::Status) {
            OwnerReply::Stands(status) => (recorded.tally(), status),
            _ => unreachable!(),
        }
    }

    /// It is no step.
    pub fn is_closed(&self) -> bool
        ensures { result ≡ not self.now.recorded.pool.core.desk.is_open }
    {
        self.recorded.is_closed()
    }

    /// A copy of the journal. It is no step.
    pub fn journal(&self) -> Result<Journal, AllocError>
        ensures copy { IfOk result (IsCopy self.now.recorded.pool) }
        ensures steps { IfOk result HasSteps }
    {
        self.recorded.journal()
    }

    /// A copy of the journal, which is a beginning of the history. The caller has then seen all of that. It is no step.
    pub fn journal_by(
        &mut self,
        caller: &mut Caller<Line, History<L>>,
    ) -> Result<Journal, AllocError>
        ensures recorded { self.new.recorded ≡ self.old.recorded }
        ensures wakers { self.new.wakers ≡ self.old.wakers }
        ensures ends { self.new.ends ≡ self.old.ends }
        ensures caller { caller.new
            ≡ record caller.old { seen = self.old.recorded.log } }
        ensures seen { IsPrefix caller.old.seen caller.new.seen }
        ensures legal { IsLegal caller.new.seen }
        ensures beginning { IfOk result (λ journal. IsBeginning journal caller.new.seen) }
        ensures steps { IfOk result HasSteps }
    {
        let Locked { recorded, .. } = self;
        recorded.journal_by(caller)
    }

    // Whether somebody waits for the end, which has come.
    #[inline(always)]
    fn is_end_due(&self) -> bool
        ensures { result ≡ is_end_due self.now.ends self.now.recorded.pool.core.desk }
    {
        !self.ends.is_empty() && self.ends.has_come(self.recorded.is_drained())
    }
}

// None of these is a step. A caller that is told that nobody is due has seen all of the history, which then has who
// waits for the end of the pool, and what is still to be dropped.
impl<T: Drop, L: Ledgers> Wakes for Locked<T, L> {
    ghost use Rattle.deadpool_chronicle.specs.History.{SeesMore};
    ghost use Rattle.deadpool_history.specs.History.{AllAreTold, awaited};

    type Seer = Caller<Line, History<L>>;

    ghost keeps = { λ c later. SeesMore c later };

    ghost is_quiet = { λ c. AllAreTold c.seen };

    fn keeps_all() {}

    #[inline]
    fn is_wake_due(&mut self, caller: &mut Caller<Line, History<L>>) -> bool
        ensures due { result ≡ (is_some (due_now self.old.recorded.pool.core)
            || is_end_due self.old.ends self.old.recorded.pool.core.desk) }
        ensures pool { self.new.recorded.pool ≡ self.old.recorded.pool }
        ensures wakers { self.new.wakers ≡ self.old.wakers }
        ensures ends { self.new.ends ≡ self.old.ends }
        ensures noted { awaited caller.new.seen ≡ awaited_by self.old.ends }
        ensures keeps { SeesMore caller.old caller.new }
        ensures quiet { result ≡ false → AllAreTold caller.new.seen }
    {
        let Locked {
            recorded,
            first,
            ends,
            ..
        } = self;
        recorded.note_ending(first, ends.waiting(), ends.departing());
        self.recorded.is_wake_due(caller) || self.is_end_due()
    }

    fn take_wake(&mut self) -> Option<Owed>
        ensures told { TellsLocked self.old.recorded.pool self.old.wakers self.old.ends result
            self.new.recorded.pool self.new.wakers self.new.ends }
        ensures keeps_room { HasRoomFor self.old.recorded.pool self.old.wakers
            → HasRoomFor self.new.recorded.pool self.new.wakers }
    {
        if let Some(ticket) = self.recorded.take_wake(&mut self.first) {
            return self.wakers.tell(ticket);
        }
        if self.is_end_due() {
            return self.ends.take_wake();
        }
        None
    }

    fn has_departed(&mut self, departed: Departed)
        ensures recorded { self.new.recorded ≡ self.old.recorded }
        ensures wakers { self.new.wakers ≡ self.old.wakers }
        ensures ends { self.new.ends
            ≡ record self.old.ends { departing = one_less self.old.ends.departing } }
    {
        self.ends.has_departed(departed);
    }
}

// A holder lets go of something, or of nothing.
#[inline(always)]
fn depart(ends: &mut Ends, departure: &mut Option<Departure>, lets_go: bool)
    ensures { Departs lets_go ends.old departure.old ends.new departure.new }
{
    if lets_go {
        ends.depart(departure);
    }
}

// A step of a holder whose share is in the pool's counts. They have what the reply leaves it.
#[inline(always)]
fn make_counted<T: Drop, L: Ledgers>(
    recorded: &mut Recorded<T, History<L>>,
    caller: &mut Caller<Line, History<L>>,
    step: &Step,
    hand: &mut Option<Slot<T>>,
) -> Reply
    requires brings { Brings step.now hand.old }
    requires shares { AreIn (counts_of (needed step.now)) (counted recorded.old.pool) }
    requires own { IsOwn step.now (number_in hand.old) (held_in caller.old.mine) }
    requires named { IsNamed (named step.now) (waits_in caller.old.mine) }
    ensures made { MakesNoted
        recorded.old.pool step.now hand.old result hand.new recorded.new.pool }
    ensures fits { IsReplyTo step.now result }
    ensures hand { Leaves result hand.old hand.new }
    ensures known { IsKnown result }
    ensures counts { counted recorded.new.pool
        ≡ shifted (needed step.now) (left_by step.now result) (counted recorded.old.pool) }
    ensures called { HasCalled
        (λ e. e ≡ entry.Made step.now (number_in (option_or hand.old hand.new)) result)
        caller.old caller.new }
{
    recorded.make(caller, step, hand)
}
