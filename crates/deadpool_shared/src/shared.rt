//! What the handles of a pool share.
ghost use Rattle.std.specs.Prelude.{◌≡◌, IfOk};
ghost use mathlib.Core.List.{IsPrefix};
ghost use Rattle.deadpool_chronicle.specs.History.{calls_by};
ghost use Rattle.deadpool_desk.specs.Replies.{IsOwnerReplyTo};
ghost use Rattle.deadpool_desk.specs.declared.owner_step.OwnerStep.TheVariants as step;
ghost use Rattle.deadpool_history.specs.History.{CallsAndTells, IsBeginning, IsLegal};
ghost use Rattle.deadpool_journal.specs.Copies.{HasSteps};
ghost use Rattle.deadpool_journal.specs.Tally.{AreBalanced};
ghost use Rattle.deadpool_journal.specs.declared.entry.Entry.TheVariants as entry;
ghost use Rattle.deadpool_shared.specs.Calling.{AnswersAndTells, AsksStatus, AsksTally, ByNewCaller};
ghost use Rattle.deadpool_shared.specs.Calling.{CountsBy};
ghost use Rattle.deadpool_shared.specs.Counts.{IsNewCaller};

use crate::ledgers::{History, Ledgers};
use crate::locked::Locked;
use deadpool_chronicle::{Beginning, Caller};
use deadpool_history::Line;
use deadpool_journal::{Journal, Tally};
use deadpool_lock::{Counted, Departure, StepLock};
use deadpool_managed::gate::Ticket;
use deadpool_managed::{
    AsyncHook, Clock, Environment, Kept, Manager, OwnerReply, OwnerStep, RetainResult, Retainer,
    Status, SyncHook, Timeouts,
};
use futures::task::{Source, Waker};
use std::alloc::AllocError;
use std::sync::Wait;

/// What the handles of a pool share: what its gets are lent, and the lock.
#[derive(Drop)]
pub struct Shared<
    M: Manager,
    F: SyncHook<M>,
    A: AsyncHook<M>,
    C: Clock,
    R: Wait + Drop,
    L: Ledgers,
> {
    pub environment: Environment<M, F, A>,
    /// Those of a get that is started without its own.
    pub timeouts: Timeouts,
    pub clock: C,
    /// The beginning of the history, which says how the pool opened.
    pub opening: Beginning<Line, History<L>>,
    pub lock: StepLock<Locked<Kept<M::Type>, L>, R>,
}

impl<M: Manager, F: SyncHook<M>, A: AsyncHook<M>, C: Clock, R: Wait + Drop, L: Ledgers> Shared<
    M,
    F,
    A,
    C,
    R,
    L,
> {
    /// A caller that has made no step yet, and has seen how the pool opened. It is no step.
    pub fn caller(&self) -> Caller<Line, History<L>>
        ensures new { IsNewCaller result }
        ensures opened { IsPrefix self.now.opening.log result.seen }
    {
        let mut section = self.lock.begin();
        let mut caller = section.kept().admit_after(&self.opening);
        self.lock.end(section, &mut caller);
        caller
    }

    /// What was seen earlier is a beginning of what the caller has seen then. It is no step.
    pub fn after(
        &self,
        caller: &mut Caller<Line, History<L>>,
        earlier: &Beginning<Line, History<L>>,
    )
        ensures caller { caller.new ≡ record caller.old { seen = caller.new.seen } }
        ensures seen { IsPrefix caller.old.seen caller.new.seen }
        ensures earlier { IsPrefix earlier.now.log caller.new.seen }
        ensures legal { IsLegal caller.new.seen }
    {
        let mut section = self.lock.begin();
        section.kept().audit(caller, earlier);
        self.lock.end(section, caller);
    }

    /// The history is legal, begins with how the pool opened, and has of two callers what they have, which have then
    /// seen all of it. It is no step.
    pub fn audit(&self, one: &mut Caller<Line, History<L>>, two: &mut Caller<Line, History<L>>)
        ensures one { one.new ≡ record one.old { seen = one.new.seen } }
        ensures two { two.new ≡ record two.old { seen = one.new.seen } }
        ensures seen_by_one { IsPrefix one.old.seen one.new.seen }
        ensures seen_by_two { IsPrefix two.old.seen one.new.seen }
        ensures opened { IsPrefix self.now.opening.log one.new.seen }
        ensures legal { IsLegal one.new.seen }
        ensures calls_of_one { calls_by one.old.number one.new.seen ≡ one.old.mine }
        ensures calls_of_two { calls_by two.old.number one.new.seen ≡ two.old.mine }
    {
        let mut section = self.lock.begin();
        let locked = section.kept();
        locked.audit(one, &self.opening);
        locked.audit(two, &self.opening);
        let mut other = locked.admit();
        self.lock.end(section, &mut other);
    }

    /// Makes a step of the pool's owner, and gives the reply. Idle objects that go are dropped with the lock taken.
    /// Gets that the step made due are told, and then the caller has seen a moment at which all were.
    #[inline(always)]
    pub fn make_for_owner_by(
        &self,
        caller: &mut Caller<Line, History<L>>,
        step: &OwnerStep,
    ) -> OwnerReply
        ensures fits { IsOwnerReplyTo step.now result }
        ensures call { CallsAndTells (λ e. e ≡ entry.Owner step.now result)
            caller.old caller.new }
    {
        let mut locked = self.lock.begin();
        let reply = locked.kept().make_for_owner(caller, step);
        self.lock.end(locked, caller);
        reply
    }

    /// The same by a new caller.
    #[inline(always)]
    pub fn make_for_owner(&self, step: &OwnerStep) -> OwnerReply
        ensures fits { IsOwnerReplyTo step.now result }
        ensures call { ByNewCaller self.now.opening.log
            (CallsAndTells (λ e. e ≡ entry.Owner step.now result)) }
    {
        let mut locked = self.lock.begin();
        let mut caller = locked.kept().admit_after(&self.opening);
        let reply = locked.kept().make_for_owner(&mut caller, step);
        self.lock.end(locked, &mut caller);
        reply
    }

    /// What a step has let go of, if it was anything, is detached and dropped. Those that wait for the end are told if
    /// it has come by that. It is no step.
    #[inline(always)]
    pub fn has_departed(&self, departure: Option<Departure>) {
        if let Some(departure) = departure {
            self.note_departed(departure);
        }
    }

    #[cold]
    #[inline(never)]
    fn note_departed(&self, departure: Departure) {
        let mut section = self.lock.begin();
        section.has_departed(departure);
        let mut caller = section.kept().admit();
        self.lock.end(section, &mut caller);
    }

    /// A drain waits no longer, and its waker is given out. It is no step.
    pub fn leave_drain(&self, ticket: &mut Option<Ticket>) -> Option<Waker> {
        let mut section = self.lock.begin();
        let spare = section.kept().leave_drain(ticket);
        let mut other = section.kept().admit();
        self.lock.end(section, &mut other);
        spare
    }

    /// How the pool stands, which the journal notes.
    pub fn status_by(&self, caller: &mut Caller<Line, History<L>>) -> Status
        ensures { AsksStatus result caller.old caller.new }
    {
        match self.make_for_owner_by(caller, &OwnerStep::Status) {
            OwnerReply::Stands(status) => status,
            _ => unreachable!(),
        }
    }

    /// The same by a new caller.
    pub fn status(&self) -> Status
        ensures { ByNewCaller self.now.opening.log (AsksStatus result) }
    {
        match self.make_for_owner(&OwnerStep::Status) {
            OwnerReply::Stands(status) => status,
            _ => unreachable!(),
        }
    }

    /// How often each thing has happened since the pool was opened, and how it stands now, which the journal notes.
    pub fn tally_by(&self, caller: &mut Caller<Line, History<L>>) -> (Tally, Status)
        ensures call { AsksTally result.0 result.1 caller.old caller.new }
        ensures balances { AreBalanced result.1.size result.0 }
    {
        let mut section = self.lock.begin();
        let told = section.kept().tally(caller);
        self.lock.end(section, caller);
        told
    }

    /// The same by a new caller.
    pub fn tally(&self) -> (Tally, Status)
        ensures call { ByNewCaller self.now.opening.log (AsksTally result.0 result.1) }
        ensures balances { AreBalanced result.1.size result.0 }
    {
        let mut section = self.lock.begin();
        let mut caller = section.kept().admit_after(&self.opening);
        let told = section.kept().tally(&mut caller);
        self.lock.end(section, &mut caller);
        told
    }

    /// Whether the pool was closed. It is no step.
    pub fn is_closed(&self) -> bool {
        self.lock.look().kept().is_closed()
    }

    /// A copy of the journal. It is no step.
    pub fn journal(&self) -> Result<Journal, AllocError>
        ensures { IfOk result HasSteps }
    {
        self.lock.look().kept().journal()
    }

    /// The same, which is a beginning of the history. The caller has then seen all of that.
    pub fn journal_by(&self, caller: &mut Caller<Line, History<L>>) -> Result<Journal, AllocError>
        ensures caller { caller.new ≡ record caller.old { seen = caller.new.seen } }
        ensures seen { IsPrefix caller.old.seen caller.new.seen }
        ensures legal { IsLegal caller.new.seen }
        ensures beginning { IfOk result (λ journal. IsBeginning journal caller.new.seen) }
        ensures steps { IfOk result HasSteps }
    {
        let mut section = self.lock.begin();
        let journal = section.kept().journal_by(caller);
        let mut other = section.kept().admit();
        self.lock.end(section, &mut other);
        journal
    }

    /// Gives up the idle objects that are not kept. The retainer is asked with the lock taken.
    pub fn retain_by<K: Retainer<Kept<M::Type>>>(
        &self,
        caller: &mut Caller<Line, History<L>>,
        retainer: &mut K,
    ) -> Result<RetainResult<K::Left>, AllocError>
        requires { K.can_call retainer.old }
        ensures can_call { K.can_call retainer.new }
        ensures call { AnswersAndTells K.Retainer result caller.old caller.new }
    {
        let mut step = self.lock.begin();
        let retained = step.kept().retain(caller, retainer);
        self.lock.end(step, caller);
        retained
    }

    /// The same by a new caller.
    pub fn retain<K: Retainer<Kept<M::Type>>>(
        &self,
        retainer: &mut K,
    ) -> Result<RetainResult<K::Left>, AllocError>
        requires { K.can_call retainer.old }
        ensures can_call { K.can_call retainer.new }
        ensures call { ByNewCaller self.now.opening.log (AnswersAndTells K.Retainer result) }
    {
        let mut step = self.lock.begin();
        let mut caller = step.kept().admit_after(&self.opening);
        let retained = step.kept().retain(&mut caller, retainer);
        self.lock.end(step, &mut caller);
        retained
    }
}

impl<M: Manager, F: SyncHook<M>, A: AsyncHook<M>, C: Clock, R: Wait + Drop, L: Ledgers> Counted
    for Shared<M, F, A, C, R, L> {
    ghost source_of = { λ shared. shared.lock.source.id };

    ghost counts = { λ shared. CountsBy step.CloneHandle shared.opening.log };

    ghost uncounts = { λ shared. CountsBy step.DropHandle shared.opening.log };

    fn source(&self) -> &Source {
        self.lock.source()
    }

    fn clone_handle(&self) {
        self.make_for_owner(&OwnerStep::CloneHandle);
    }

    fn drop_handle(&self) {
        self.make_for_owner(&OwnerStep::DropHandle);
    }
}
