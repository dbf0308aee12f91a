//! What is seen of a trial from outside, between its moves.
ghost use Rattle.std.specs.Prelude.{◌≡◌, slice_get};
ghost use Rattle.std.specs.Option.{option_map};
ghost use Rattle.deadpool_journal.specs.Tally.{AreBalanced};
ghost use Rattle.deadpool_trial.specs.Look.{look_of, counts_of};
ghost use Rattle.deadpool_trial.specs.Pool.{size};
ghost use Rattle.deadpool_trial.specs.TrialFields.{look_as};

use super::Trial;
use crate::Look;
use crate::tallied_core::TalliedCore;
use deadpool_journal::Tally;
use deadpool_managed::{AsyncHook, Counts, Manager, StageKind, SyncHook};

impl<M: Manager, F: SyncHook<M>, A: AsyncHook<M>, C: Drop> Trial<M, F, A, C> {
    /// How the party with this number stands. Nothing changes.
    pub fn look(&mut self, party: usize) -> Look
        ensures look { result ≡ look_of party self.old.pool }
        ensures same { self.new ≡ self.old }
    {
        match self.parties.get(party) {
            Some(Some(get)) => look_at(get.kind(), &mut self.core),
            Some(None) => Look::NoSuch,
            None => Look::NoSuch,
        }
    }

    /// What the pool counts.
    pub fn counts(&self) -> Counts
        ensures { result ≡ counts_of self.now.pool }
    {
        self.core.counts()
    }

    /// How often each thing has happened since the pool was opened. The books balance: until the count of objects that
    /// were created has stopped, each is there or was given up. Nothing changes.
    pub fn tally(&self) -> Tally
        ensures { AreBalanced (size self.now.pool) result }
    {
        self.core.tally()
    }

    /// The number of the idle object at this position, front to back.
    pub fn idle_at(&self, at: usize) -> Option<usize>
        ensures { result ≡ option_map (λ s. s.number) (slice_get self.now.pool.idle at) }
    {
        let slot = self.core.idle_at(at)?;
        Some(slot.number)
    }

    /// The number of the object that is out at this position, by rising number.
    pub fn out_at(&self, at: usize) -> Option<usize>
        ensures { result ≡ option_map (λ s. s.number) (slice_get self.now.pool.out at) }
    {
        let slot = self.out.get(at)?;
        Some(slot.number)
    }
}

// What is seen of a get at this stage.
fn look_at<T: Drop>(kind: StageKind, core: &mut TalliedCore<T>) -> Look
    ensures look { result ≡ look_as core.old.desk.granted kind }
    ensures same { core.new ≡ core.old }
{
    match kind {
        StageKind::Unpolled => Look::Unpolled,
        StageKind::Queued(ticket) => {
            if core.is_granted(ticket) {
                Look::Granted
            } else {
                Look::Queued
            }
        }
        StageKind::Going => Look::Going,
        StageKind::Creating => Look::Creating,
        StageKind::Recycling(number) => Look::Recycling(number),
        StageKind::Checking(number) => Look::Checking(number),
        StageKind::Finished => Look::Finished,
    }
}
