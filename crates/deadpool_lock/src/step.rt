//! A section of a lock, what may be called once it is over, and a look at what the lock keeps. That it is over is a
//! `Free`, which nothing outside of this file can make but by giving the lock of a section back.
ghost use Rattle.std.specs.Prelude.{◌≡◌, false};
ghost use Rattle.std.specs.Sync.Mutex.{mutex_guard_value};

use crate::{Departed, Departure};
use futures::task::Waker;
use std::marker::Model;
use std::sync::MutexGuard;

/// What a lock keeps in which tasks wait.
pub trait Wakes {
    /// What knows of a moment, such as the caller that makes a step.
    type Seer;

    // From one to the other nothing is lost of what was known.
    ghost keeps: { Self.Seer → Self.Seer → Type 0 };

    // It knows of a moment at which no task was due to be woken that was not named.
    ghost is_quiet: { Self.Seer → Type 0 };

    /// Where nothing changes nothing is lost, and from one to a third nothing that was lost on neither way.
    fn keeps_all()
        ensures same { (a : Self.Seer) → keeps a a }
        ensures on { (a b c : Self.Seer) → keeps a b → keeps b c → keeps a c };

    /// Whether a task is due to be woken that was not named yet. If none is, the seer knows it then.
    fn is_wake_due(&mut self, seer: &mut Self::Seer) -> bool
        ensures keeps { keeps seer.old seer.new }
        ensures quiet { result ≡ false → is_quiet seer.new };

    /// Names the next task that is due to be woken, and gives its waker, if there is one.
    fn take_wake(&mut self) -> Option<Owed>;

    /// What a holder has let go of is detached and dropped.
    fn has_departed(&mut self, departed: Departed);
}

/// The lock of a step that is under way. It cannot be dropped: `StepLock::end` alone takes it, so that no step leaves
/// out to tell those that are due.
pub struct Step<'a, L: Wakes> {
    kept: MutexGuard<'a, L>,
}

impl<'a, L: Wakes> Step<'a, L> {
    // One that begins, of a lock that was taken for it.
    #[inline(always)]
    pub(crate) fn begin(kept: MutexGuard<'a, L>) -> Self {
        Step { kept }
    }

    /// What the lock keeps.
    #[inline]
    pub fn kept(&mut self) -> &mut L
        ensures { result.now ≡ mutex_guard_value self.old.kept }
    {
        &mut self.kept
    }

    /// What a holder has let go of is detached and dropped. Who is due by that is told as the step ends.
    pub fn has_departed(&mut self, departure: Departure) {
        self.kept.has_departed(Departed::new(departure));
    }

    // Gives the lock back.
    #[inline]
    pub(crate) fn give_back(self) -> Free {
        let Step { kept } = self;
        drop(kept);
        Free(())
    }
}

/// The lock while somebody looks at what it keeps, and can change nothing of that. Its drop gives the lock back.
#[derive(Drop)]
pub struct Look<'a, L: Wakes> {
    kept: MutexGuard<'a, L>,
}

impl<'a, L: Wakes> Look<'a, L> {
    // One that begins, of a lock that was taken for it.
    #[inline(always)]
    pub(crate) fn begin(kept: MutexGuard<'a, L>) -> Self {
        Look { kept }
    }

    /// What the lock keeps.
    #[inline]
    pub fn kept(&self) -> &L
        ensures { result.now ≡ mutex_guard_value self.now.kept }
    {
        &self.kept
    }
}

// That its holder has given the lock back. Whoever takes the lock again gives it up.
#[derive(Drop)]
pub(crate) struct Free(());

/// A waker that is to be called. It cannot be dropped: the lock alone takes it, once it has been given back, and calls
/// it. Contracts see the waker.
pub struct Owed {
    waker: Waker,
}

impl Model for Owed {
    ghost use Rattle.futures.specs.declared.task.waker.Waker.{Waker};

    ghost Value = { Waker };

    ghost view = { λ o. o.waker };
}

impl Owed {
    /// A waker that is to be called from now on.
    pub fn new(waker: Waker) -> Self
        ensures { result ≡ waker }
    {
        Owed { waker }
    }

    // Calls it, with the lock given back.
    pub(crate) fn pay(self, _free: &Free) {
        let Owed { waker } = self;
        waker.wake();
    }
}
