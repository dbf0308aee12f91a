//! What is seen of a trial from outside, between its moves.
ghost use Rattle.std.specs.Prelude.{◌≡◌, slice_get};
ghost use Rattle.std.specs.Option.{option_map};
ghost use Rattle.deadpool_unmanaged_journal.specs.Tally.{AreBalanced};
ghost use Rattle.deadpool_trial.specs.Unmanaged.Look.{look_of, counts_of};
ghost use Rattle.deadpool_trial.specs.Unmanaged.Pool.{size};
ghost use Rattle.deadpool_trial.specs.Unmanaged.TrialFields.{look_at_get, look_at_add};

use super::{Trial, Visitor};
use crate::unmanaged::tallied_core::TalliedCore;
use crate::unmanaged::{Item, Look};
use deadpool_unmanaged::{AddStage, Counts, GetStage};
use deadpool_unmanaged_journal::Tally;

impl<T: Drop> Trial<T> {
    /// How the party with this number stands. Nothing changes.
    pub fn look(&mut self, party: usize) -> Look
        ensures look { result ≡ look_of party self.old }
        ensures same { self.new ≡ self.old }
    {
        match self.visitors.get(party) {
            Some(Some(Visitor::Get(get))) => look_at_get(get.stage(), &mut self.core),
            Some(Some(Visitor::Add(add))) => look_at_add(add.stage(), &mut self.core),
            Some(None) => Look::NoSuch,
            None => Look::NoSuch,
        }
    }

    /// What the pool counts.
    pub fn counts(&self) -> Counts
        ensures { result ≡ counts_of self.now }
    {
        self.core.counts()
    }

    /// How often each thing has happened since the pool was opened. The books balance: until the count of objects that
    /// were stored has stopped, each is there or was given up. Nothing changes.
    pub fn tally(&self) -> Tally
        ensures { AreBalanced (size self.now) result }
    {
        self.core.tally()
    }

    /// The number of the idle object at this position. The last is the next to go out.
    pub fn idle_at(&self, at: usize) -> Option<usize>
        ensures { result ≡ option_map (λ s. s.number) (slice_get self.now.idle at) }
    {
        let item = self.core.idle_at(at)?;
        Some(item.number)
    }

    /// The number of the object that is out at this position, by rising number.
    pub fn out_at(&self, at: usize) -> Option<usize>
        ensures { result ≡ option_map (λ s. s.number) (slice_get self.now.out at) }
    {
        let item = self.out.get(at)?;
        Some(item.number)
    }
}

// What is seen of a get at this stage.
fn look_at_get<T: Drop>(stage: &GetStage, core: &mut TalliedCore<Item<T>>) -> Look
    ensures look { result ≡ look_at_get core.old.pool.gets stage.now }
    ensures same { core.new ≡ core.old }
{
    match stage {
        GetStage::Unpolled(_) => Look::NewGet,
        GetStage::Queued(ticket, _) => {
            if core.get_is_granted(*ticket) {
                Look::GrantedGet
            } else {
                Look::QueuedGet
            }
        }
        GetStage::Finished => Look::Finished,
    }
}

// What is seen of an add at this stage.
fn look_at_add<T: Drop>(stage: &AddStage<Item<T>>, core: &mut TalliedCore<Item<T>>) -> Look
    ensures look { result ≡ look_at_add core.old.pool.adds stage.now }
    ensures same { core.new ≡ core.old }
{
    match stage {
        AddStage::Unpolled(item) => Look::NewAdd(item.number),
        AddStage::Queued(ticket, item) => {
            if core.add_is_granted(*ticket) {
                Look::GrantedAdd(item.number)
            } else {
                Look::QueuedAdd(item.number)
            }
        }
        AddStage::Finished => Look::Finished,
    }
}
