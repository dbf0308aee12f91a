//! A core whose steps are counted.
ghost use Rattle.std.specs.Prelude.{◌≡◌, nat_lt, option_copied, slice_get};
ghost use Rattle.deadpool_gate.specs.Numbers.{has_number};
ghost use Rattle.deadpool_desk.specs.CoreSteps.{Makes, MakesForOwner, Retains};
ghost use Rattle.deadpool_desk.specs.Counts.{counts_of};
ghost use Rattle.deadpool_desk.specs.DeskState.{size};
ghost use Rattle.deadpool_journal.specs.Tally.{AreBalanced};

use deadpool_desk::Reply;
use deadpool_desk::gate::Ticket;
use deadpool_journal::{Tally, laws};
use deadpool_managed::{
    Core, Counts, Desk, OwnerDesk, OwnerReply, OwnerStep, RetainResult, Retainer, Slot, Step,
};
use std::alloc::AllocError;
use std::marker::Model;

/// A core, and how often each thing has happened in it. Its steps are those of the core, and what is seen of it from
/// outside is the core: the tally is no part of that.
#[derive(Drop)]
pub struct TalliedCore<T> {
    core: Core<T>,
    tally: Tally,
}

impl<T> Model for TalliedCore<T> {
    ghost use Rattle.deadpool_desk.specs.CoreState.{CoreState};

    ghost Value = { CoreState T };

    ghost use Rattle.deadpool_trial.specs.TalliedFields.{TalliedInvariant};

    ghost view = { λ c. c.core };

    ghost invariant = { TalliedInvariant };
}

// How many objects there are.
fn size_of<T: Drop>(core: &Core<T>) -> usize
    ensures { result ≡ size core.now.desk }
{
    core.counts().size
}

impl<T: Drop> TalliedCore<T> {
    /// That of a core before its first step.
    pub fn new(core: Core<T>) -> TalliedCore<T>
        requires { size core.desk ≡ 0 }
        ensures { result ≡ core }
    {
        TalliedCore {
            core,
            tally: Tally::new(),
        }
    }

    /// How often each thing has happened.
    pub fn tally(&self) -> Tally
        ensures { AreBalanced (size self.now.desk) result }
    {
        self.tally
    }

    /// Whether a pool handle is left.
    pub fn has_handle(&self) -> bool
        ensures { result ≡ nat_lt 0 self.now.desk.handles }
    {
        self.core.has_handle()
    }

    /// What the pool counts.
    pub fn counts(&self) -> Counts
        ensures { result ≡ counts_of self.now.desk }
    {
        self.core.counts()
    }

    /// The idle object at this position, front to back.
    pub fn idle_at(&self, at: usize) -> Option<&Slot<T>>
        ensures { option_copied result ≡ slice_get self.now.desk.idle at }
    {
        self.core.idle_at(at)
    }

    /// Whether the get in the queue with this ticket was granted a place, which it has not taken yet. Nothing changes.
    pub fn is_granted(&mut self, ticket: Ticket) -> bool
        ensures granted { result ≡ has_number ticket self.old.desk.granted }
        ensures same { self.new ≡ self.old }
    {
        self.core.is_granted(ticket)
    }
}

impl<T: Drop> Desk<T> for TalliedCore<T> {
    ghost makes = { Makes };

    fn make(&mut self, step: &Step, hand: &mut Option<Slot<T>>) -> Reply {
        laws::books_stay_balanced::<T>();
        let reply = self.core.make(step, hand);
        self.tally.count(step, &reply);
        reply
    }
}

impl<T: Drop> OwnerDesk<T> for TalliedCore<T> {
    ghost makes = { MakesForOwner };

    ghost retains = { λ R L asks. Retains asks };

    fn make_for_owner(&mut self, step: &OwnerStep) -> OwnerReply {
        laws::books_stay_balanced::<T>();
        let size = size_of(&self.core);
        let reply = self.core.make_for_owner(step);
        let gone = size.saturating_sub(size_of(&self.core));
        self.tally.count_for_owner(step, gone);
        reply
    }

    fn retain<R: Retainer<T>>(
        &mut self,
        retainer: &mut R,
    ) -> Result<RetainResult<R::Left>, AllocError> {
        laws::retain_keeps_books_balanced::<T, R>();
        let size = size_of(&self.core);
        let result = self.core.retain(retainer);
        let gone = size.saturating_sub(size_of(&self.core));
        self.tally.count_retain(&result, gone);
        result
    }
}
