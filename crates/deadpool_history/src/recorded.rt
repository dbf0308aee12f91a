//! A pool's state, with the history that leads to it.
ghost use Rattle.std.specs.Prelude.{◌≡◌, ◌+◌, [], ◌∷◌, ◌++◌, IfOk, false, is_some, not};
ghost use Rattle.std.specs.Prelude.{IsTrue, OnOk, ◌<◌, ◌≤◌, ◌-◌, ◌^◌, min};
ghost use Rattle.std.specs.Option.{option_or};
ghost use mathlib.Core.List.{IsPrefix};
ghost use Rattle.deadpool_chronicle.specs.History.{Calls, calls_by};
ghost use Rattle.deadpool_desk.specs.Closing.{is_drained};
ghost use Rattle.deadpool_desk.specs.CoreState.{HasRoom, listed, most_next_ticket};
ghost use Rattle.deadpool_desk.specs.CoreSteps.{due_now};
ghost use Rattle.deadpool_desk.specs.DeskState.{size, would_queue};
ghost use Rattle.deadpool_desk.specs.Replies.{Brings, IsOwnerReplyTo, IsReplyTo, Leaves, named};
ghost use Rattle.deadpool_journal.specs.ByNumber.{number_in, numbered};
ghost use Rattle.deadpool_journal.specs.Copies.{HasSteps};
ghost use Rattle.deadpool_journal.specs.Journaling.{opening};
ghost use Rattle.deadpool_journal.specs.LogState.{no_entries};
ghost use Rattle.deadpool_journal.specs.Tally.{AreBalanced};
ghost use Rattle.deadpool_history.specs.History.{GetsAreTold, HasCalled, IsBeginning, IsLegal, IsNext};
ghost use Rattle.deadpool_history.specs.History.{IsRetain, IsTallyOf, LeadsTo, awaited, told_by};
ghost use Rattle.deadpool_history.specs.Retains.{AnswersFor};
ghost use Rattle.deadpool_history.specs.Own.{held_in, waits_in};
ghost use Rattle.deadpool_history.specs.declared.line.Line.TheVariants as line;
ghost use Rattle.deadpool_journal.specs.Steps.{MakesNoted, MakesForOwnerNoted, NotifiesUnnoted};
ghost use Rattle.deadpool_journal.specs.Steps.{RetainsNoted};
ghost use Rattle.deadpool_journal.specs.declared.entry.Entry.TheVariants as entry;
ghost use Rattle.deadpool_turns.specs.Holders.{IsOwn};
ghost use Rattle.deadpool_turns.specs.Tickets.{IsNamed};

use crate::line::Line;
use deadpool_chronicle::{Author, Beginning, Caller, Chronicle, Says};
use deadpool_desk::gate::Ticket;
use deadpool_desk::{
    Desk, OwnerDesk, OwnerReply, OwnerStep, Reply, RetainResult, Retainer, Slot, Step,
};
use deadpool_journal::{Journal, Journaled, Tally};
use std::alloc::AllocError;
use std::marker::{Model, PhantomData};

// The entry of a step of a get or an object: the step with the number of its object, and the reply.
struct ToStep;

impl Says<(Step, Option<usize>), Reply, Line> for ToStep {
    ghost use Rattle.std.specs.Prelude.{◌≡◌};
    ghost use Rattle.deadpool_history.specs.History.{IsNext};
    ghost use Rattle.deadpool_journal.specs.declared.entry.Entry.TheVariants.{Made};

    ghost entry = { λ asked reply _ line. IsNext (λ e. e ≡ Made asked.0 asked.1 reply) line };
}

// The entry of a step of the owner.
struct ToOwnerStep;

impl Says<OwnerStep, OwnerReply, Line> for ToOwnerStep {
    ghost use Rattle.std.specs.Prelude.{◌≡◌};
    ghost use Rattle.deadpool_history.specs.History.{IsNext};
    ghost use Rattle.deadpool_journal.specs.declared.entry.Entry.TheVariants.{Owner};

    ghost entry = { λ step reply _ line. IsNext (λ e. e ≡ Owner step reply) line };
}

// The entry of a retain: of those that its reply allows, one by which the history leads to the pool's state. So what
// was given up, and where it stood, need not be at hand.
struct ToRetain<R> {
    by: PhantomData<R>,
}

impl<T, R: Retainer<T>> Says<Journaled<T>, Result<RetainResult<R::Left>, AllocError>, Line>
    for ToRetain<R> {
    ghost use Rattle.deadpool_history.specs.History.{IsNext, IsRetain, LeadsWith};
    ghost use Rattle.deadpool_history.specs.Retains.{RetainsFrom};
    ghost use Rattle.deadpool_journal.specs.ByNumber.{numbered};

    ghost entry = { λ pool result log line. IsNext (λ e. IsRetain result e × LeadsWith pool log e
        × RetainsFrom R.Retainer result log e (numbered pool.core.desk)) line };
}

// The first line, of a pool that opens.
struct ToOpening;

impl<T> Says<Journaled<T>, (), Line> for ToOpening {
    ghost use Rattle.std.specs.Prelude.{◌≡◌};
    ghost use Rattle.deadpool_history.specs.declared.line.Line.TheVariants.{Opening};

    ghost entry = { λ pool _ _ line. line
        ≡ Opening pool.limit pool.mode pool.min_idle pool.max_waiting };
}

// The line of one in the queue that is told.
struct ToTold;

impl Says<Ticket, (), Line> for ToTold {
    ghost use Rattle.std.specs.Prelude.{◌≡◌};
    ghost use Rattle.deadpool_history.specs.declared.line.Line.TheVariants.{Told};

    ghost entry = { λ ticket _ _ line. line ≡ Told ticket };
}

// The line of those that wait for the end of the pool, and of what is still to be dropped.
struct ToEnding;

impl Says<(usize, u64), (), Line> for ToEnding {
    ghost use Rattle.std.specs.Prelude.{◌≡◌};
    ghost use Rattle.deadpool_history.specs.declared.line.Line.TheVariants.{Ending};

    ghost entry = { λ counts _ _ line. line ≡ Ending counts.0 counts.1 };
}

/// A pool's state with its journal, and who adds to the history. The history's entries are steps of the desk machine,
/// from the state that the pool opened with to the one that it has, and by its lines those in the queue were told whom
/// the pool has told.
#[derive(Drop)]
pub struct Recorded<T, H: Chronicle> {
    pool: Journaled<T>,
    author: Author<Line, H>,
}

impl<T, H: Chronicle> Model for Recorded<T, H> {
    ghost use Rattle.deadpool_history.specs.History.{Recording, LeadsTo};

    ghost Value = { Recording T };

    ghost view = { λ r. record { pool = r.pool; log = r.author.log } };

    ghost invariant = { λ r. LeadsTo r.pool r.author.log };
}

// The number of the object in a hand.
fn number_of<T>(hand: &Option<Slot<T>>) -> Option<usize>
    ensures { result ≡ number_in hand.now }
{
    match hand {
        Some(slot) => Some(slot.number),
        None => None,
    }
}

// Who was named stands in the history, in this caller's name, if somebody was.
fn note_told<H: Chronicle>(
    author: &mut Author<Line, H>,
    caller: &mut Caller<Line, H>,
    named: &Option<Ticket>,
)
    ensures { author.new.log ≡ author.old.log ++ told_by caller.old.number named.now }
{
    if let Some(ticket) = named {
        author.note::<Ticket, (), ToTold>(caller, ticket, &());
    }
}

impl<T: Drop, H: Chronicle> Recorded<T, H> {
    /// A pool that has made no step yet, whose history has how it opened, and this beginning of the history.
    pub fn new(
        pool: Journaled<T>,
        mut author: Author<Line, H>,
        first: &mut Caller<Line, H>,
    ) -> (Self, Beginning<Line, H>)
        requires opened { numbered pool.core.desk ≡ opening pool }
        requires unnotified { pool.core.unnotified ≡ [] }
        requires empty { author.log ≡ [] }
        requires unnoted { pool.log ≡ no_entries pool.log.most }
        ensures pool { result.0.pool ≡ pool }
        ensures log { result.0.log
            ≡ (first.old.number, line.Opening pool.limit pool.mode pool.min_idle pool.max_waiting) ∷ [] }
        ensures beginning { result.1.log ≡ result.0.log }
    {
        pool.laws();
        author.note::<Journaled<T>, (), ToOpening>(first, &pool, &());
        let beginning = author.seen();
        (Recorded { pool, author }, beginning)
    }

    /// Makes a step of a get or an object, which is one entry more of its caller's. By its own entries the caller has
    /// what it gives away, and waits under the ticket that it names.
    #[inline(always)]
    pub fn make(
        &mut self,
        caller: &mut Caller<Line, H>,
        step: &Step,
        hand: &mut Option<Slot<T>>,
    ) -> Reply
        requires brings { Brings step.now hand.old }
        requires own { IsOwn step.now (number_in hand.old) (held_in caller.old.mine) }
        requires named { IsNamed (named step.now) (waits_in caller.old.mine) }
        ensures made { MakesNoted self.old.pool step.now hand.old result hand.new self.new.pool }
        ensures fits { IsReplyTo step.now result }
        ensures hand { Leaves result hand.old hand.new }
        ensures call { Calls
            (IsNext (λ e. e ≡ entry.Made step.now (number_in (option_or hand.old hand.new)) result))
            self.old.log caller.old self.new.log caller.new }
        ensures seen { IsPrefix caller.old.seen self.old.log }
        ensures called { HasCalled
            (λ e. e ≡ entry.Made step.now (number_in (option_or hand.old hand.new)) result)
            caller.old caller.new }
    {
        let Recorded { pool, author, .. } = self;
        let taken = number_of(hand);
        let reply = pool.make(step, hand);
        let asked = (*step, taken.or(number_of(hand)));
        author.note::<(Step, Option<usize>), Reply, ToStep>(caller, &asked, &reply);
        reply
    }

    /// Makes a step of the pool's owner, which is one entry more of its caller's.
    #[inline(always)]
    pub fn make_for_owner(&mut self, caller: &mut Caller<Line, H>, step: &OwnerStep) -> OwnerReply
        ensures made { MakesForOwnerNoted self.old.pool step.now result self.new.pool }
        ensures fits { IsOwnerReplyTo step.now result }
        ensures call { Calls (IsNext (λ e. e ≡ entry.Owner step.now result))
            self.old.log caller.old self.new.log caller.new }
        ensures seen { IsPrefix caller.old.seen self.old.log }
        ensures called { HasCalled (λ e. e ≡ entry.Owner step.now result) caller.old caller.new }
    {
        let Recorded { pool, author, .. } = self;
        let reply = pool.make_for_owner(step);
        author.note::<OwnerStep, OwnerReply, ToOwnerStep>(caller, step, &reply);
        reply
    }

    /// Asks `retainer` about each idle object, as `OwnerDesk::retain` does, which is one entry more of the caller's.
    pub fn retain<R: Retainer<T>>(
        &mut self,
        caller: &mut Caller<Line, H>,
        retainer: &mut R,
    ) -> Result<RetainResult<R::Left>, AllocError>
        requires { R.can_call retainer.old }
        ensures can_call { R.can_call retainer.new }
        ensures retained { RetainsNoted R.Retainer
            self.old.pool retainer.old result self.new.pool retainer.new }
        ensures call { Calls (IsNext (IsRetain result))
            self.old.log caller.old self.new.log caller.new }
        ensures seen { IsPrefix caller.old.seen self.old.log }
        ensures called { HasCalled (IsRetain result) caller.old caller.new }
        ensures which { HasCalled (AnswersFor R.Retainer result caller.new.seen)
            caller.old caller.new }
    {
        let Recorded { pool, author, .. } = self;
        let result = pool.retain(retainer);
        author.note::<Journaled<T>, Result<RetainResult<R::Left>, AllocError>, ToRetain<R>>(
            caller, pool, &result,
        );
        result
    }

    /// Lets a caller in, of which the history has nothing yet. It is no step.
    pub fn admit(&mut self, caller: &mut Caller<Line, H>) -> Caller<Line, H>
        ensures same { self.new ≡ self.old }
        ensures caller { caller.new
            ≡ record caller.old { admitted = caller.old.admitted + 1 } }
        ensures mine { result.mine ≡ [] }
        ensures admitted { result.admitted ≡ 0 }
        ensures seen { result.seen ≡ self.old.log }
    {
        let Recorded { author, .. } = self;
        author.admit(caller)
    }

    /// What was seen is a beginning of the history. It is no step.
    pub fn above(&mut self, seen: &Beginning<Line, H>)
        ensures same { self.new ≡ self.old }
        ensures seen { IsPrefix seen.now.log self.old.log }
    {
        let Recorded { author, .. } = self;
        author.above(seen);
    }

    /// The history leads from the state that the pool opened with to the one that it has, and has of a caller what the
    /// caller has. It is no step.
    pub fn audit(&mut self, caller: &mut Caller<Line, H>)
        ensures same { self.new ≡ self.old }
        ensures leads { LeadsTo self.old.pool self.old.log }
        ensures legal { IsLegal self.old.log }
        ensures caller { caller.new ≡ record caller.old { seen = self.old.log } }
        ensures seen { IsPrefix caller.old.seen self.old.log }
        ensures mine { calls_by caller.old.number self.old.log ≡ caller.old.mine }
    {
        let Recorded { author, .. } = self;
        author.audit(caller);
    }

    /// How often each thing has happened since the pool was opened. It is no step.
    pub fn tally(&self) -> Tally
        ensures tally { result ≡ self.now.pool.tally }
        ensures balances { AreBalanced (size self.now.pool.core.desk) result }
        ensures counted { IsTallyOf self.now.log result }
    {
        self.pool.tally()
    }

    /// A copy of the journal. It is no step.
    pub fn journal(&self) -> Result<Journal, AllocError>
        ensures limit { IfOk result (λ journal. journal.limit ≡ self.now.pool.limit) }
        ensures mode { IfOk result (λ journal. journal.mode ≡ self.now.pool.mode) }
        ensures min_idle { IfOk result (λ journal. journal.min_idle ≡ self.now.pool.min_idle) }
        ensures max_waiting { IfOk result (λ journal.
            journal.max_waiting ≡ self.now.pool.max_waiting) }
        ensures entries { IfOk result (λ journal.
            journal.entries.items ≡ self.now.pool.log.entries) }
        ensures full { IfOk result (λ journal. journal.full ≡ self.now.pool.log.is_full) }
        ensures steps { IfOk result HasSteps }
    {
        self.pool.journal()
    }

    /// A copy of the journal, which is a beginning of the history: its entries are those of the first steps, of all of
    /// them if it is not full. The caller has then seen all of the history.
    pub fn journal_by(&mut self, caller: &mut Caller<Line, H>) -> Result<Journal, AllocError>
        ensures same { self.new ≡ self.old }
        ensures caller { caller.new ≡ record caller.old { seen = self.old.log } }
        ensures seen { IsPrefix caller.old.seen self.old.log }
        ensures legal { IsLegal self.old.log }
        ensures beginning { IfOk result (λ journal. IsBeginning journal self.old.log) }
        ensures steps { IfOk result HasSteps }
    {
        self.audit(caller);
        self.pool.journal()
    }

    /// Whether the pool has closed. It is no step.
    pub fn is_closed(&self) -> bool
        ensures { result ≡ not self.now.pool.core.desk.is_open }
    {
        self.pool.is_closed()
    }

    /// Whether the pool has closed and nothing is left in it. It is no step.
    pub fn is_drained(&self) -> bool
        ensures { result ≡ is_drained self.now.pool.core.desk }
    {
        self.pool.is_drained()
    }

    /// Whether a get that enters now, and is willing to wait, has to join the queue. It is no step.
    pub fn would_queue(&self) -> bool
        ensures would { result ≡ would_queue self.now.pool.core.desk }
        ensures room { IsTrue result → HasRoom self.now.pool.core
            → listed self.now.pool.core < min self.now.pool.core.queue_room (2 ^ 63 - 1) }
    {
        self.pool.would_queue()
    }

    /// The greatest number that the ticket of the next get in the queue may have. It is no step.
    pub fn most_next_ticket(&self) -> usize
        ensures { result ≡ most_next_ticket self.now.pool.core }
    {
        self.pool.most_next_ticket()
    }

    /// How many gets the queue can list before it has to find memory. It is no step.
    pub fn queue_room(&self) -> usize
        ensures { result ≡ self.now.pool.core.queue_room }
    {
        self.pool.queue_room()
    }

    /// Sees that the queue has room for all gets that may wait in it and all that may be granted a place. It is no
    /// step. Without memory for that only the room may have changed.
    pub fn make_room_for_waiting(&mut self) -> Result<(), AllocError>
        ensures room { OnOk result (HasRoom self.new.pool.core) }
        ensures kept { self.old.pool.core.queue_room ≤ self.new.pool.core.queue_room }
        ensures same { self.new.pool ≡ record self.old.pool { core = self.new.pool.core } }
        ensures desk { self.new.pool.core.desk ≡ self.old.pool.core.desk }
        ensures unnotified { self.new.pool.core.unnotified ≡ self.old.pool.core.unnotified }
        ensures log { self.new.log ≡ self.old.log }
    {
        self.pool.make_room_for_waiting()
    }

    /// The next get in the queue that is due to be woken. It is no step; who was named stands in the history, in the
    /// name of the caller, which is one of the pool's own.
    pub fn take_wake(&mut self, caller: &mut Caller<Line, H>) -> Option<Ticket>
        ensures told { NotifiesUnnoted self.old.pool result self.new.pool }
        ensures log { self.new.log ≡ self.old.log ++ told_by caller.old.number result }
    {
        let Recorded { pool, author, .. } = self;
        let named = pool.take_wake();
        note_told(author, caller, &named);
        named
    }

    /// From here on so many drains wait for the end of the pool, and so many holders have let go of something that they
    /// have not dropped yet. It is no step. That stands in the history, in the name of the caller, which is one of the
    /// pool's own.
    pub fn note_ending(&mut self, caller: &mut Caller<Line, H>, drains: usize, departing: u64)
        ensures pool { self.new.pool ≡ self.old.pool }
        ensures log { self.new.log
            ≡ self.old.log ++ (caller.old.number, line.Ending drains departing) ∷ [] }
        ensures awaited { awaited self.new.log
            ≡ record { drains = drains; departing = departing } }
    {
        let Recorded { author, .. } = self;
        author.note::<(usize, u64), (), ToEnding>(caller, &(drains, departing), &());
    }

    /// Whether `take_wake` would name a get. The caller has then seen all of the history, at whose end no get is due if
    /// none is. It is no step.
    #[inline]
    pub fn is_wake_due(&mut self, caller: &mut Caller<Line, H>) -> bool
        ensures due { result ≡ is_some (due_now self.old.pool.core) }
        ensures same { self.new ≡ self.old }
        ensures caller { caller.new ≡ record caller.old { seen = self.old.log } }
        ensures seen { IsPrefix caller.old.seen self.old.log }
        ensures leads { LeadsTo self.old.pool self.old.log }
        ensures quiet { result ≡ false → GetsAreTold caller.new.seen }
    {
        self.author.audit(caller);
        self.pool.is_wake_due()
    }
}
