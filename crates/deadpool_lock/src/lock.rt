//! A lock whose steps tell those that wait, and after which their callers know that all were told.
ghost use Rattle.std.specs.Prelude.{◌≡◌};

use crate::step::{Free, Look, Step, Wakes};
use futures::task::Source;
use std::sync::{Mutex, MutexGuard, Wait};

/// A lock with the handle that it is taken by. A step takes it by `begin` and gives it back by `end`, which calls the
/// wakers of those that are due then.
#[derive(Drop)]
pub struct StepLock<L: Wakes, R: Wait> {
    kept: Mutex<L>,
    rt: R,
    // What each of those that wait is woken by.
    source: Source,
}

impl<L: Wakes, R: Wait> StepLock<L, R> {
    /// A lock that is free.
    pub fn new(kept: L, rt: R) -> Self {
        StepLock {
            kept: Mutex::new(kept),
            rt,
            source: Source::new(),
        }
    }

    /// What each of those that wait registers with.
    pub fn source(&self) -> &Source
        ensures { result.now ≡ self.now.source }
    {
        &self.source
    }

    /// Takes the lock for one step. No code of a user's may run before it is given back.
    #[inline]
    pub fn begin(&self) -> Step<'_, L> {
        Step::begin(self.take())
    }

    // Takes the lock once more.
    fn begin_again(&self, _free: Free) -> Step<'_, L> {
        self.begin()
    }

    /// Takes the lock for what changes nothing that it keeps, and so makes nobody due and tells nobody.
    #[inline]
    pub fn look(&self) -> Look<'_, L> {
        Look::begin(self.take())
    }

    // Takes the lock, at once if it is free.
    #[inline]
    fn take(&self) -> MutexGuard<'_, L> {
        match self.kept.try_lock() {
            Some(kept) => kept,
            None => self.wait(),
        }
    }

    #[cold]
    #[inline(never)]
    fn wait(&self) -> MutexGuard<'_, L> {
        self.kept.lock(&self.rt)
    }

    /// Gives the lock back after a step. If the step left a task due to be woken, the wakers of all that are due are
    /// called, one at a time and none of them under the lock. Then the seer knows of a moment after the step at which
    /// nobody was due that was not named.
    #[inline]
    pub fn end(&self, step: Step<'_, L>, seer: &mut L::Seer)
        ensures keeps { L.keeps seer.old seer.new }
        ensures quiet { L.is_quiet seer.new }
    {
        L::keeps_all();
        let mut step = step;
        let is_due = step.kept().is_wake_due(seer);
        let free = step.give_back();
        if is_due {
            self.call_due(free, seer);
        }
    }

    #[cold]
    #[inline(never)]
    fn call_due(&self, mut free: Free, seer: &mut L::Seer)
        ensures keeps { L.keeps seer.old seer.new }
        ensures quiet { L.is_quiet seer.new }
    {
        L::keeps_all();
        'telling: for _ in self.rt.forever() {
            let mut step = self.begin_again(free);
            let kept = step.kept();
            let owed = kept.take_wake();
            let is_due = kept.is_wake_due(seer);
            free = step.give_back();
            if let Some(owed) = owed {
                owed.pay(&free);
            }
            if !is_due {
                return;
            }
        }
    }
}
