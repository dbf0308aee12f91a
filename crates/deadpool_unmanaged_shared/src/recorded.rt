//! A pool with its history.
ghost use Rattle.std.specs.Prelude.{◌≡◌, [], IfOk};
ghost use mathlib.Core.List.{IsPrefix};
ghost use Rattle.deadpool_chronicle.specs.History.{calls_by};
ghost use Rattle.deadpool_unmanaged_history.specs.History.{IsBeginning, IsLegal, OpensWith};
ghost use Rattle.deadpool_unmanaged.specs.State.{bounded, opened};
ghost use Rattle.deadpool_unmanaged_journal.specs.Copies.{HasSteps};
ghost use Rattle.deadpool_unmanaged_journal.specs.Tally.{AreBalanced};
ghost use Rattle.deadpool_unmanaged_shared.specs.Calling.{AsksTally, ByNewCaller, IsNewCaller};

use crate::pool::Pool;
use crate::shared::Shared;
use deadpool_chronicle::{Beginning, Blank, Caller, Chronicle};
use deadpool_unmanaged::{Clock, PoolConfig, Status};
use deadpool_unmanaged_history::{Line, Recorded};
use deadpool_unmanaged_journal::{Journal, Journaled, Naming, Tally};
use std::alloc::{AllocError, Global};
use std::sync::Wait;

impl<T, C, R, K, H> Shared<T, C, R, Recorded<T, K, H>>
where
    T: Drop,
    C: Clock,
    R: Wait + Drop,
    K: Naming<T>,
    H: Chronicle,
{
    /// The history is legal, and has of two callers what they have, which have then seen all of it. It is no step.
    pub fn audit(&self, one: &mut Caller<Line<T>, H>, two: &mut Caller<Line<T>, H>)
        ensures one { one.new ≡ record one.old { seen = one.new.seen } }
        ensures two { two.new ≡ record two.old { seen = one.new.seen } }
        ensures seen_by_one { IsPrefix one.old.seen one.new.seen }
        ensures seen_by_two { IsPrefix two.old.seen one.new.seen }
        ensures legal { IsLegal one.new.seen }
        ensures calls_of_one { calls_by one.old.number one.new.seen ≡ one.old.mine }
        ensures calls_of_two { calls_by two.old.number one.new.seen ≡ two.old.mine }
    {
        let mut step = self.lock.begin();
        let recorded = &mut step.kept().state;
        recorded.audit(one);
        recorded.audit(two);
        let mut other = step.kept().admit();
        self.lock.end(step, &mut other);
    }

    /// What was seen earlier is a beginning of what the caller has seen then. It is no step.
    pub fn after(&self, caller: &mut Caller<Line<T>, H>, earlier: &Beginning<Line<T>, H>)
        ensures caller { caller.new ≡ record caller.old { seen = caller.new.seen } }
        ensures seen { IsPrefix caller.old.seen caller.new.seen }
        ensures earlier { IsPrefix earlier.now.log caller.new.seen }
        ensures legal { IsLegal caller.new.seen }
    {
        let mut step = self.lock.begin();
        let recorded = &mut step.kept().state;
        recorded.above(earlier);
        recorded.audit(caller);
        let mut other = step.kept().admit();
        self.lock.end(step, &mut other);
    }

    /// How often each thing has happened since the pool was opened, and how it stands now, which the journal notes.
    pub fn tally_by(&self, caller: &mut Caller<Line<T>, H>) -> (Tally, Status)
        ensures call { AsksTally result.0 result.1 caller.old caller.new }
        ensures balances { AreBalanced result.1.size result.0 }
    {
        let mut step = self.lock.begin();
        let told = step.kept().state.tally_by(caller);
        self.lock.end(step, caller);
        told
    }

    /// The same by a new caller.
    pub fn tally(&self) -> (Tally, Status)
        ensures call { ByNewCaller (IsNewCaller {T = T}) (AsksTally result.0 result.1) }
        ensures balances { AreBalanced result.1.size result.0 }
    {
        let mut step = self.lock.begin();
        let mut caller = step.kept().admit();
        let told = step.kept().state.tally_by(&mut caller);
        self.lock.end(step, &mut caller);
        told
    }

    /// A copy of the journal. It is no step.
    pub fn journal(&self) -> Result<Journal<K::Name>, AllocError>
        ensures { IfOk result HasSteps }
    {
        self.lock.look().kept().state.journal()
    }

    /// The same, which is a beginning of the history. The caller has then seen all of that.
    pub fn journal_by(
        &self,
        caller: &mut Caller<Line<T>, H>,
    ) -> Result<Journal<K::Name>, AllocError>
        ensures caller { caller.new ≡ record caller.old { seen = caller.new.seen } }
        ensures seen { IsPrefix caller.old.seen caller.new.seen }
        ensures legal { IsLegal caller.new.seen }
        ensures beginning { IfOk result (λ journal. IsBeginning K.name_of journal caller.new.seen) }
        ensures steps { IfOk result HasSteps }
    {
        let mut step = self.lock.begin();
        let journal = step.kept().state.journal_by(caller);
        let mut other = step.kept().admit();
        self.lock.end(step, &mut other);
        journal
    }
}

impl<T, C, R, K, H> Pool<T, C, R, Recorded<T, K, H>>
where
    T: Drop + Send,
    C: Clock + Send + Sync,
    R: Wait + Drop + Send + Sync,
    K: Naming<T>,
    H: Chronicle,
{
    /// An open pool with nothing in it, whose history this one is, with a tally, and room for so many entries in its
    /// journal. Beside it stands the beginning of the history, which says how the pool opened.
    pub fn with_history(
        alloc: Global,
        config: &PoolConfig,
        most_entries: usize,
        history: Blank,
        clock: C,
        rt: R,
    ) -> Result<(Self, Beginning<Line<T>, H>), AllocError>
        requires opens { history.names ≡ H.names }
        ensures opening { IfOk result (λ made.
            OpensWith config.now.max_size config.now.max_waiting made.1.log) }
        ensures timeout { IfOk result (λ made. made.0.timeout ≡ config.now.timeout) }
        ensures runtime { IfOk result (λ made. made.0.runtime ≡ config.now.runtime) }
        ensures clock { IfOk result (λ made. made.0.clock ≡ clock) }
    {
        let (max_size, max_waiting) = (config.max_size, config.max_waiting);
        match open_history(alloc, max_size, max_waiting, most_entries, history) {
            Ok((recorded, first, opening)) => {
                let pool = Pool::open(alloc, recorded, first, config, clock, rt)?;
                Ok((pool, opening))
            }
            Err(AllocError) => Err(AllocError),
        }
    }
}

impl<T, C, R, K, H> Pool<T, C, R, Recorded<T, K, H>>
where
    T: Drop,
    C: Clock,
    R: Wait + Drop,
    K: Naming<T>,
    H: Chronicle,
{
    /// The history is legal, and has of two callers what they have, which have then seen all of it. It is no step.
    pub fn audit(&self, one: &mut Caller<Line<T>, H>, two: &mut Caller<Line<T>, H>)
        ensures one { one.new ≡ record one.old { seen = one.new.seen } }
        ensures two { two.new ≡ record two.old { seen = one.new.seen } }
        ensures seen_by_one { IsPrefix one.old.seen one.new.seen }
        ensures seen_by_two { IsPrefix two.old.seen one.new.seen }
        ensures legal { IsLegal one.new.seen }
        ensures calls_of_one { calls_by one.old.number one.new.seen ≡ one.old.mine }
        ensures calls_of_two { calls_by two.old.number one.new.seen ≡ two.old.mine }
    {
        self.shared().audit(one, two);
    }

    /// From now on the caller has seen what somebody had seen earlier, so its next call stands in the history after
    /// all that stands there. A caller's `seen` gives what it has seen so far. It is no step.
    pub fn after(&self, caller: &mut Caller<Line<T>, H>, earlier: &Beginning<Line<T>, H>)
        ensures caller { caller.new ≡ record caller.old { seen = caller.new.seen } }
        ensures seen { IsPrefix caller.old.seen caller.new.seen }
        ensures earlier { IsPrefix earlier.now.log caller.new.seen }
        ensures legal { IsLegal caller.new.seen }
    {
        self.shared().after(caller, earlier);
    }

    /// How often each thing has happened since the pool was opened, and how the pool stands, all at one moment. The
    /// books balance: each object that was stored is in the pool, or is counted where it was given up. A pool that
    /// another call opens keeps a bare `Core`, and counts nothing.
    pub fn tally(&self) -> (Tally, Status)
        ensures call { ByNewCaller (IsNewCaller {T = T}) (AsksTally result.0 result.1) }
        ensures balances { AreBalanced result.1.size result.0 }
    {
        self.shared().tally()
    }

    /// `tally` by a caller that the history has it of. The tally is that of the history.
    pub fn tally_by(&self, caller: &mut Caller<Line<T>, H>) -> (Tally, Status)
        ensures call { AsksTally result.0 result.1 caller.old caller.new }
        ensures balances { AreBalanced result.1.size result.0 }
    {
        self.shared().tally_by(caller)
    }

    /// A copy of the pool's journal: how the pool opened, and its first steps since, each with the reply that it got.
    /// `AllocError` says that there was no memory for the copy.
    pub fn journal(&self) -> Result<Journal<K::Name>, AllocError>
        ensures { IfOk result HasSteps }
    {
        self.shared().journal()
    }

    /// `journal`, which is a beginning of the history: its entries are those of the first steps, of all of them if it
    /// is not full. The caller has then seen all of the history.
    pub fn journal_by(
        &self,
        caller: &mut Caller<Line<T>, H>,
    ) -> Result<Journal<K::Name>, AllocError>
        ensures caller { caller.new ≡ record caller.old { seen = caller.new.seen } }
        ensures seen { IsPrefix caller.old.seen caller.new.seen }
        ensures legal { IsLegal caller.new.seen }
        ensures beginning { IfOk result (λ journal. IsBeginning K.name_of journal caller.new.seen) }
        ensures steps { IfOk result HasSteps }
    {
        self.shared().journal_by(caller)
    }
}

// A pool that has made no step yet, over a new history, its first caller, and the beginning of that history.
fn open_history<T: Drop, K: Naming<T>, H: Chronicle>(
    alloc: Global,
    max_size: usize,
    max_waiting: Option<usize>,
    most_entries: usize,
    history: Blank,
) -> Result<(Recorded<T, K, H>, Caller<Line<T>, H>, Beginning<Line<T>, H>), AllocError>
    requires { history.names ≡ H.names }
    ensures pool { IfOk result (λ made. made.0.pool.core.pool
        ≡ bounded max_waiting (opened max_size [])) }
    ensures opening { IfOk result (λ made. OpensWith max_size max_waiting made.2.log) }
{
    let pool = Journaled::new(alloc, max_size, most_entries)?.bounded(max_waiting);
    let (author, mut first) = history.open::<Line<T>, H>();
    let (recorded, opening) = Recorded::new(pool, author, &mut first);
    Ok((recorded, first, opening))
}
