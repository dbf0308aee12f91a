//! A pool's state, with the history that leads to it.
ghost use Rattle.std.specs.Prelude.{◌≡◌, ◌+◌, ◌<◌, [], ◌∷◌, ◌++◌, Some, IfOk, IfSome, IsTrue};
ghost use Rattle.std.specs.Prelude.{OnErr, OnOk, false, nat_lt, not};
ghost use Rattle.std.specs.Option.{option_or};
ghost use mathlib.Core.List.{IsPrefix};
ghost use Rattle.deadpool_chronicle.specs.History.{Calls, calls_by};
ghost use Rattle.deadpool_unmanaged.specs.Closing.{is_drained};
ghost use Rattle.deadpool_unmanaged.specs.Replies.{Brings, IsReplyTo, Leaves};
ghost use Rattle.deadpool_unmanaged.specs.Room.{HasRoom, RoomLasts, SameRoom, most_next_add, most_next_get};
ghost use Rattle.deadpool_unmanaged.specs.State.{add_would_queue, bounded, get_would_queue, has_due, opened};
ghost use Rattle.deadpool_unmanaged.specs.State.{listed, size};
ghost use Rattle.deadpool_unmanaged_journal.specs.Copies.{HasSteps};
ghost use Rattle.deadpool_unmanaged_journal.specs.LogState.{no_entries};
ghost use Rattle.deadpool_unmanaged_journal.specs.OwnerSteps.{IsOwnerReplyTo};
ghost use Rattle.deadpool_unmanaged_journal.specs.Steps.{MakesNoted, MakesForOwnerNoted};
ghost use Rattle.deadpool_unmanaged_journal.specs.Steps.{TellsAddUnnoted, TellsGetUnnoted};
ghost use Rattle.deadpool_unmanaged_journal.specs.Tally.{AreBalanced};
ghost use Rattle.deadpool_unmanaged_journal.specs.declared.entry.Entry.TheVariants as entry;
ghost use Rattle.deadpool_unmanaged_journal.specs.declared.owner_step.OwnerReply.TheVariants as owner_reply;
ghost use Rattle.deadpool_unmanaged_journal.specs.declared.owner_step.OwnerStep.TheVariants as step;
ghost use Rattle.deadpool_unmanaged_history.specs.Awaited.{awaited};
ghost use Rattle.deadpool_unmanaged_history.specs.History.{HasCalled, IsBeginning, IsLegal, IsNext, QueuesAreTold};
ghost use Rattle.deadpool_unmanaged_history.specs.History.{IsTallyOf, LeadsTo, object_of, told_by};
ghost use Rattle.deadpool_unmanaged_history.specs.Own.{named_by, waits_in};
ghost use Rattle.deadpool_unmanaged_history.specs.Waiting.{IsTicketKnown};
ghost use Rattle.deadpool_unmanaged_history.specs.declared.line.Line.TheVariants as line;
ghost use Rattle.deadpool_unmanaged_history.specs.declared.line.Wake.TheVariants as wake;

use crate::line::{Line, Wake};
use deadpool_chronicle::{Author, Beginning, Caller, Chronicle, Says};
use deadpool_unmanaged::gate::Ticket;
use deadpool_unmanaged::{Reply, Status, Step};
use deadpool_unmanaged_journal::{Journal, Journaled, Naming, OwnerReply, OwnerStep, Tally};
use std::alloc::AllocError;
use std::marker::Model;

// What is at hand of a step of a get, an add or an object once it was made: the pool, the step and the hand.
#[derive(Drop)]
struct Left<'a, T, K: Naming<T>> {
    pool: &'a Journaled<T, K>,
    step: Step,
    hand: &'a Option<T>,
}

// The entry of such a step, with its object.
struct ToStep;

impl<'a, T, K: Naming<T>> Says<Left<'a, T, K>, Reply, Line<T>> for ToStep {
    ghost use Rattle.std.specs.Prelude.{◌≡◌};
    ghost use Rattle.deadpool_unmanaged_history.specs.History.{IsNext, object_of};
    ghost use Rattle.deadpool_unmanaged_journal.specs.declared.entry.Entry.TheVariants.{Made};

    ghost entry = { λ left reply _ line.
        IsNext (λ e. e ≡ Made left.step (object_of left.pool.now.core.pool reply left.hand.now) reply) line };
}

// The entry of a step of the owner.
struct ToOwnerStep;

impl<T> Says<OwnerStep, OwnerReply, Line<T>> for ToOwnerStep {
    ghost use Rattle.std.specs.Prelude.{◌≡◌};
    ghost use Rattle.deadpool_unmanaged_history.specs.History.{IsNext};
    ghost use Rattle.deadpool_unmanaged_journal.specs.declared.entry.Entry.TheVariants.{Owner};

    ghost entry = { λ step reply _ line. IsNext (λ e. e ≡ Owner step reply) line };
}

// The first line, of a pool that opens.
struct ToOpening;

impl<T, K: Naming<T>> Says<Journaled<T, K>, (), Line<T>> for ToOpening {
    ghost use Rattle.std.specs.Prelude.{◌≡◌};
    ghost use Rattle.deadpool_unmanaged_history.specs.declared.line.Line.TheVariants.{Opening};

    ghost entry = { λ pool _ _ line. line ≡ Opening pool.limit pool.max_waiting };
}

// The line of one in a queue that is told.
struct ToTold;

impl<T> Says<Wake, (), Line<T>> for ToTold {
    ghost use Rattle.std.specs.Prelude.{◌≡◌};
    ghost use Rattle.deadpool_unmanaged_history.specs.declared.line.Line.TheVariants.{Told};

    ghost entry = { λ wake _ _ line. line ≡ Told wake };
}

// The line of those that wait for the end of the pool, and of what is still to be dropped.
struct ToEnding;

impl<T> Says<(usize, u64), (), Line<T>> for ToEnding {
    ghost use Rattle.std.specs.Prelude.{◌≡◌};
    ghost use Rattle.deadpool_unmanaged_history.specs.declared.line.Line.TheVariants.{Ending};

    ghost entry = { λ counts _ _ line. line ≡ Ending counts.0 counts.1 };
}

/// A pool's state with its journal, and who adds to the history. The history's entries are the pool's steps, from the
/// state that it opened with to the one that it has, and by its lines those in the queues were told whom the pool has
/// told.
#[derive(Drop)]
pub struct Recorded<T, K: Naming<T>, H: Chronicle> {
    pool: Journaled<T, K>,
    author: Author<Line<T>, H>,
}

impl<T, K: Naming<T>, H: Chronicle> Model for Recorded<T, K, H> {
    ghost use Rattle.deadpool_unmanaged_history.specs.History.{Recording, LeadsTo};

    ghost Value = { Recording T K.Name };

    ghost view = { λ r. record { pool = r.pool; log = r.author.log } };

    ghost invariant = { λ r. LeadsTo K.name_of r.pool r.author.log };
}

impl<T: Drop, K: Naming<T>, H: Chronicle> Recorded<T, K, H> {
    /// A pool that has made no step yet, whose history has how it opened, and this beginning of the history.
    pub fn new(
        pool: Journaled<T, K>,
        mut author: Author<Line<T>, H>,
        first: &mut Caller<Line<T>, H>,
    ) -> (Self, Beginning<Line<T>, H>)
        requires opened { pool.core.pool ≡ bounded pool.max_waiting (opened pool.limit []) }
        requires empty { author.log ≡ [] }
        requires unnoted { pool.log ≡ no_entries pool.log.most }
        ensures pool { result.0.pool ≡ pool }
        ensures log { result.0.log
            ≡ (first.old.number, line.Opening pool.limit pool.max_waiting) ∷ [] }
        ensures beginning { result.1.log ≡ result.0.log }
    {
        pool.laws();
        author.note::<Journaled<T, K>, (), ToOpening>(first, &pool, &());
        let beginning = author.seen();
        (Recorded { pool, author }, beginning)
    }

    /// Makes a step of a get, an add or an object, which is one entry more of its caller's. If it names a ticket, the
    /// caller waits under that by its own entries. So the pool knows the ticket.
    #[inline(always)]
    pub fn make(
        &mut self,
        caller: &mut Caller<Line<T>, H>,
        step: &Step,
        hand: &mut Option<T>,
    ) -> Reply
        requires brings { Brings step.now hand.old }
        requires named { IfSome (named_by step.now) (λ wake. waits_in caller.old.mine ≡ Some wake) }
        ensures made { MakesNoted K.name_of
            self.old.pool step.now hand.old result hand.new self.new.pool }
        ensures fits { IsReplyTo step.now result }
        ensures hand { Leaves result hand.old hand.new }
        ensures room { RoomLasts self.old.pool.core result self.new.pool.core }
        ensures call { Calls
            (IsNext (λ e. e ≡ entry.Made step.now (option_or hand.old hand.new) result))
            self.old.log caller.old self.new.log caller.new }
        ensures seen { IsPrefix caller.old.seen self.old.log }
        ensures called { HasCalled
            (λ e. e ≡ entry.Made step.now (option_or hand.old hand.new) result)
            caller.old caller.new }
        ensures known { IsTicketKnown (entry.Made step.now (option_or hand.old hand.new) result) }
    {
        let Recorded { pool, author, .. } = self;
        let reply = pool.make(step, hand);
        note_step(author, caller, pool, step, hand, &reply);
        reply
    }

    /// Makes a step of the pool's owner, which is one entry more of its caller's.
    #[inline(always)]
    pub fn make_for_owner(
        &mut self,
        caller: &mut Caller<Line<T>, H>,
        step: &OwnerStep,
    ) -> OwnerReply
        ensures made { MakesForOwnerNoted self.old.pool step.now result self.new.pool }
        ensures fits { IsOwnerReplyTo step.now result }
        ensures room { SameRoom self.old.pool.core self.new.pool.core }
        ensures call { Calls (IsNext (λ e. e ≡ entry.Owner step.now result))
            self.old.log caller.old self.new.log caller.new }
        ensures seen { IsPrefix caller.old.seen self.old.log }
        ensures called { HasCalled (λ e. e ≡ entry.Owner step.now result) caller.old caller.new }
    {
        let Recorded { pool, author, .. } = self;
        let reply = pool.make_for_owner(step);
        author.note::<OwnerStep, OwnerReply, ToOwnerStep>(caller, step, &reply);
        reply
    }

    /// Lets a caller in, of which the history has nothing yet. It is no step.
    pub fn admit(&mut self, caller: &mut Caller<Line<T>, H>) -> Caller<Line<T>, H>
        ensures same { self.new ≡ self.old }
        ensures caller { caller.new
            ≡ record caller.old { admitted = caller.old.admitted + 1 } }
        ensures mine { result.mine ≡ [] }
        ensures admitted { result.admitted ≡ 0 }
        ensures seen { result.seen ≡ self.old.log }
    {
        let Recorded { author, .. } = self;
        author.admit(caller)
    }

    /// What was seen is a beginning of the history. It is no step.
    pub fn above(&mut self, seen: &Beginning<Line<T>, H>)
        ensures same { self.new ≡ self.old }
        ensures seen { IsPrefix seen.now.log self.old.log }
    {
        let Recorded { author, .. } = self;
        author.above(seen);
    }

    /// The history leads from the state that the pool opened with to the one that it has, and has of a caller what the
    /// caller has. It is no step.
    pub fn audit(&mut self, caller: &mut Caller<Line<T>, H>)
        ensures same { self.new ≡ self.old }
        ensures leads { LeadsTo K.name_of self.old.pool self.old.log }
        ensures legal { IsLegal self.old.log }
        ensures caller { caller.new ≡ record caller.old { seen = self.old.log } }
        ensures seen { IsPrefix caller.old.seen self.old.log }
        ensures mine { calls_by caller.old.number self.old.log ≡ caller.old.mine }
    {
        let Recorded { author, .. } = self;
        author.audit(caller);
    }

    /// How often each thing has happened since the pool was opened. It is no step.
    pub fn tally(&self) -> Tally
        ensures tally { result ≡ self.now.pool.tally }
        ensures balances { AreBalanced (size self.now.pool.core.pool) result }
        ensures counted { IsTallyOf self.now.log result }
    {
        self.pool.tally()
    }

    /// The same, and how the pool stands, which is one entry more of its caller's: the last that is counted.
    pub fn tally_by(&mut self, caller: &mut Caller<Line<T>, H>) -> (Tally, Status)
        ensures made { MakesForOwnerNoted self.old.pool step.Status (owner_reply.Stands result.1)
            self.new.pool }
        ensures room { SameRoom self.old.pool.core self.new.pool.core }
        ensures tally { result.0 ≡ self.new.pool.tally }
        ensures balances { AreBalanced result.1.size result.0 }
        ensures counted { IsTallyOf caller.new.seen result.0 }
        ensures called { HasCalled
            (λ e. e ≡ entry.Owner step.Status (owner_reply.Stands result.1))
            caller.old caller.new }
    {
        match self.make_for_owner(caller, &OwnerStep::Status) {
            OwnerReply::Stands(status) => (self.tally(), status),
            _ => unreachable!(),
        }
    }

    /// A copy of the journal. It is no step.
    pub fn journal(&self) -> Result<Journal<K::Name>, AllocError>
        ensures limit { IfOk result (λ journal. journal.limit ≡ self.now.pool.limit) }
        ensures max_waiting { IfOk result (λ journal.
            journal.max_waiting ≡ self.now.pool.max_waiting) }
        ensures entries { IfOk result (λ journal.
            journal.entries.items ≡ self.now.pool.log.entries) }
        ensures full { IfOk result (λ journal. journal.full ≡ self.now.pool.log.is_full) }
        ensures steps { IfOk result HasSteps }
    {
        self.pool.journal()
    }

    /// A copy of the journal, which is a beginning of the history: its entries are those of the first steps, of all of
    /// them if it is not full. The caller has then seen all of the history.
    pub fn journal_by(
        &mut self,
        caller: &mut Caller<Line<T>, H>,
    ) -> Result<Journal<K::Name>, AllocError>
        ensures same { self.new ≡ self.old }
        ensures caller { caller.new ≡ record caller.old { seen = self.old.log } }
        ensures seen { IsPrefix caller.old.seen self.old.log }
        ensures legal { IsLegal self.old.log }
        ensures beginning { IfOk result (λ journal. IsBeginning K.name_of journal self.old.log) }
        ensures steps { IfOk result HasSteps }
    {
        self.audit(caller);
        self.pool.journal()
    }

    /// Whether the pool was closed. It is no step.
    pub fn is_closed(&self) -> bool
        ensures { result ≡ not self.now.pool.core.pool.is_open }
    {
        self.pool.is_closed()
    }

    /// Whether the pool was closed and no object is left, idle or out. It is no step.
    pub fn is_drained(&self) -> bool
        ensures { result ≡ is_drained self.now.pool.core.pool }
    {
        self.pool.is_drained()
    }

    /// Whether a pool handle is left. It is no step.
    pub fn has_handle(&self) -> bool
        ensures { result ≡ nat_lt 0 self.now.pool.core.pool.handles }
    {
        self.pool.has_handle()
    }

    /// Whether a get that enters now and wants to wait joins the queue. It is no step.
    pub fn get_would_queue(&self) -> bool
        ensures would { result ≡ get_would_queue self.now.pool.core.pool }
        ensures room { IsTrue result → HasRoom self.now.pool.core
            → listed self.now.pool.core.pool.gets < self.now.pool.core.gets_room }
    {
        self.pool.get_would_queue()
    }

    /// Whether an add that enters now and wants to wait joins the queue. It is no step.
    pub fn add_would_queue(&self) -> bool
        ensures would { result ≡ add_would_queue self.now.pool.core.pool }
        ensures room { IsTrue result → HasRoom self.now.pool.core
            → listed self.now.pool.core.pool.adds < self.now.pool.core.adds_room }
    {
        self.pool.add_would_queue()
    }

    /// The greatest number that the ticket of the next get in the queue may have. It is no step.
    pub fn most_next_get(&self) -> usize
        ensures { result ≡ most_next_get self.now.pool.core }
    {
        self.pool.most_next_get()
    }

    /// The greatest number that the ticket of the next add in the queue may have. It is no step.
    pub fn most_next_add(&self) -> usize
        ensures { result ≡ most_next_add self.now.pool.core }
    {
        self.pool.most_next_add()
    }

    /// How many gets the queue has room for. It is no step.
    pub fn gets_room(&self) -> usize
        ensures { result ≡ self.now.pool.core.gets_room }
    {
        self.pool.gets_room()
    }

    /// How many adds the queue has room for. It is no step.
    pub fn adds_room(&self) -> usize
        ensures { result ≡ self.now.pool.core.adds_room }
    {
        self.pool.adds_room()
    }

    /// Sees that each queue has room for all that may wait in it and all that may be granted what they ask for. Without
    /// memory for it only the room may have changed. It is no step, and the history has nothing of it.
    pub fn make_room_for_waiting(&mut self) -> Result<(), AllocError>
        ensures room { OnOk result (HasRoom self.new.pool.core) }
        ensures wanting { OnErr result (HasRoom self.old.pool.core → ⊥) }
        ensures same { HasRoom self.old.pool.core → self.new ≡ self.old }
        ensures pool { self.new.pool.core.pool ≡ self.old.pool.core.pool }
        ensures others { self.new.pool
            ≡ record self.old.pool { core = self.new.pool.core } }
        ensures log { self.new.log ≡ self.old.log }
    {
        self.pool.make_room_for_waiting()
    }

    /// The next get in the queue that is due to be woken. It is no step. Who was named stands in the history, in the
    /// name of the caller, which is one of the pool's own.
    pub fn take_get_wake(&mut self, caller: &mut Caller<Line<T>, H>) -> Option<Ticket>
        ensures told { TellsGetUnnoted self.old.pool result self.new.pool }
        ensures room { SameRoom self.old.pool.core self.new.pool.core }
        ensures log { self.new.log
            ≡ self.old.log ++ told_by (λ ticket. wake.Get ticket) caller.old.number result }
    {
        let Recorded { pool, author, .. } = self;
        let ticket = pool.take_get_wake()?;
        note_told(author, caller, &Wake::Get(ticket));
        Some(ticket)
    }

    /// The next add in the queue that is due to be woken. It is no step. Who was named stands in the history, in the
    /// name of the caller, which is one of the pool's own.
    pub fn take_add_wake(&mut self, caller: &mut Caller<Line<T>, H>) -> Option<Ticket>
        ensures told { TellsAddUnnoted self.old.pool result self.new.pool }
        ensures room { SameRoom self.old.pool.core self.new.pool.core }
        ensures log { self.new.log
            ≡ self.old.log ++ told_by (λ ticket. wake.Add ticket) caller.old.number result }
    {
        let Recorded { pool, author, .. } = self;
        let ticket = pool.take_add_wake()?;
        note_told(author, caller, &Wake::Add(ticket));
        Some(ticket)
    }

    /// From here on so many drains wait for the end of the pool, and so many holders have let go of an object that they
    /// have not dropped yet. It is no step. That stands in the history, in the name of the caller, which is one of the
    /// pool's own.
    pub fn note_ending(&mut self, caller: &mut Caller<Line<T>, H>, drains: usize, departing: u64)
        ensures pool { self.new.pool ≡ self.old.pool }
        ensures log { self.new.log
            ≡ self.old.log ++ (caller.old.number, line.Ending drains departing) ∷ [] }
        ensures awaited { awaited self.new.log
            ≡ record { drains = drains; departing = departing } }
    {
        let Recorded { author, .. } = self;
        author.note::<(usize, u64), (), ToEnding>(caller, &(drains, departing), &());
    }

    /// Whether `take_get_wake` or `take_add_wake` would name somebody. The caller that sees it has then seen all of the
    /// history, at whose end all in the queues are told if nobody is due. It is no step.
    #[inline]
    pub fn is_wake_due(&mut self, seer: &mut Caller<Line<T>, H>) -> bool
        ensures due { result ≡ has_due self.old.pool.core.pool }
        ensures same { self.new ≡ self.old }
        ensures seer { seer.new ≡ record seer.old { seen = self.old.log } }
        ensures seen { IsPrefix seer.old.seen self.old.log }
        ensures leads { LeadsTo K.name_of self.old.pool self.old.log }
        ensures quiet { result ≡ false → QueuesAreTold seer.new.seen }
    {
        let Recorded { pool, author, .. } = self;
        author.audit(seer);
        pool.is_wake_due()
    }
}

// Who was named stands in the history, in this caller's name.
#[inline(always)]
fn note_told<T, H: Chronicle>(
    author: &mut Author<Line<T>, H>,
    caller: &mut Caller<Line<T>, H>,
    wake: &Wake,
)
    ensures { author.new.log ≡ author.old.log ++ (caller.old.number, line.Told wake.now) ∷ [] }
{
    author.note::<Wake, (), ToTold>(caller, wake, &());
}

// A step that was made is one entry more, by what it left.
#[inline(always)]
fn note_step<T: Drop, K: Naming<T>, H: Chronicle>(
    author: &mut Author<Line<T>, H>,
    caller: &mut Caller<Line<T>, H>,
    pool: &Journaled<T, K>,
    step: &Step,
    hand: &Option<T>,
    reply: &Reply,
)
    ensures call { Calls
        (IsNext (λ e. e
        ≡ entry.Made step.now (object_of pool.now.core.pool reply.now hand.now) reply.now))
        author.old.log caller.old author.new.log caller.new }
    ensures seen { IsPrefix caller.old.seen author.old.log }
    ensures mine { calls_by caller.old.number author.old.log ≡ caller.old.mine }
{
    let left = Left {
        pool,
        step: *step,
        hand,
    };
    author.note::<Left<'_, T, K>, Reply, ToStep>(caller, &left, reply);
}
