//! The two that keep a pool's state: a core alone, and a pool with its history.

use crate::keeps_state::KeepsState;
use crate::line::Line;
use crate::recorded::Recorded;
use deadpool_chronicle::{Caller, Chronicle};
use deadpool_unmanaged::gate::Ticket;
use deadpool_unmanaged::{Core, Reply, Step};
use deadpool_unmanaged_journal::{Naming, OwnerReply, OwnerStep};
use std::alloc::AllocError;

// Without a history nothing is known of a step that was made.
impl<T: Drop> KeepsState<T> for Core<T> {
    ghost use Rattle.std.specs.Prelude.{⊤, None};

    type Caller = ();

    ghost state_of = { λ core. core };

    ghost awaited_of = { λ _. None };

    ghost is_new = { λ _. ⊤ };

    ghost calls = { λ _ _ _. ⊤ };

    ghost keeps = { λ _ _. ⊤ };

    ghost is_quiet = { λ _. ⊤ };

    ghost has_closed = { λ _. ⊤ };

    fn keeps_all() {}

    fn closers_stay() {}

    fn waiters_stay() {}

    fn admit(&mut self, _caller: &mut ()) -> () {}

    #[inline(always)]
    fn make(&mut self, _caller: &mut (), step: &Step, hand: &mut Option<T>) -> Reply {
        Core::make(self, step, hand)
    }

    #[inline(always)]
    fn make_for_owner(&mut self, _caller: &mut (), step: &OwnerStep) -> OwnerReply {
        step.make(self)
    }

    fn is_closed(&self) -> bool {
        Core::is_closed(self)
    }

    fn stay_closed(&mut self, _caller: &mut ()) {
        if !Core::is_closed(self) {
            OwnerStep::Close.make(self);
        }
    }

    fn is_drained(&self) -> bool {
        Core::is_drained(self)
    }

    fn get_would_queue(&self) -> bool {
        Core::get_would_queue(self)
    }

    fn add_would_queue(&self) -> bool {
        Core::add_would_queue(self)
    }

    fn most_next_get(&self) -> usize {
        Core::most_next_get(self)
    }

    fn most_next_add(&self) -> usize {
        Core::most_next_add(self)
    }

    fn gets_room(&self) -> usize {
        Core::gets_room(self)
    }

    fn adds_room(&self) -> usize {
        Core::adds_room(self)
    }

    fn make_room_for_waiting(&mut self) -> Result<(), AllocError> {
        Core::make_room_for_waiting(self)
    }

    fn take_get_wake(&mut self, _caller: &mut ()) -> Option<Ticket> {
        Core::take_get_wake(self)
    }

    fn take_add_wake(&mut self, _caller: &mut ()) -> Option<Ticket> {
        Core::take_add_wake(self)
    }

    fn note_ending(&mut self, _caller: &mut (), _drains: usize, _departing: u64) {}

    fn is_wake_due(&mut self, _caller: &mut ()) -> bool {
        Core::is_wake_due(self)
    }
}

impl<T: Drop, K: Naming<T>, H: Chronicle> KeepsState<T> for Recorded<T, K, H> {
    ghost use Rattle.std.specs.Prelude.{◌≡◌, [], Some};
    ghost use Rattle.deadpool_chronicle.specs.History.{SeesMore};
    ghost use Rattle.deadpool_unmanaged_history.specs.Awaited.{awaited};
    ghost use Rattle.deadpool_unmanaged_history.specs.Closers.{IsCloser};
    ghost use Rattle.deadpool_unmanaged_history.specs.History.{AllAreTold, HasCalled};
    ghost use Rattle.deadpool_unmanaged_history.specs.Own.{waits_in};

    type Caller = Caller<Line<T>, H>;

    ghost state_of = { λ recorded. recorded.pool.core };

    ghost awaited_of = { λ recorded. Some (awaited recorded.log) };

    ghost is_new = { λ caller. (caller.mine ≡ []) × (caller.admitted ≡ 0) };

    ghost calls = { λ e. HasCalled (λ x. x ≡ e) };

    ghost keeps = { SeesMore };

    ghost is_quiet = { λ caller. AllAreTold caller.seen };

    ghost has_closed = { IsCloser };

    ghost waits = { λ caller wake. waits_in caller.mine ≡ Some wake };

    fn keeps_all() {}

    fn closers_stay() {}

    fn waiters_stay() {}

    fn admit(&mut self, caller: &mut Caller<Line<T>, H>) -> Caller<Line<T>, H> {
        Recorded::admit(self, caller)
    }

    #[inline(always)]
    fn make(
        &mut self,
        caller: &mut Caller<Line<T>, H>,
        step: &Step,
        hand: &mut Option<T>,
    ) -> Reply {
        Recorded::make(self, caller, step, hand)
    }

    #[inline(always)]
    fn make_for_owner(&mut self, caller: &mut Caller<Line<T>, H>, step: &OwnerStep) -> OwnerReply {
        Recorded::make_for_owner(self, caller, step)
    }

    fn is_closed(&self) -> bool {
        Recorded::is_closed(self)
    }

    fn stay_closed(&mut self, caller: &mut Caller<Line<T>, H>) {
        self.audit(caller);
    }

    fn is_drained(&self) -> bool {
        Recorded::is_drained(self)
    }

    fn get_would_queue(&self) -> bool {
        Recorded::get_would_queue(self)
    }

    fn add_would_queue(&self) -> bool {
        Recorded::add_would_queue(self)
    }

    fn most_next_get(&self) -> usize {
        Recorded::most_next_get(self)
    }

    fn most_next_add(&self) -> usize {
        Recorded::most_next_add(self)
    }

    fn gets_room(&self) -> usize {
        Recorded::gets_room(self)
    }

    fn adds_room(&self) -> usize {
        Recorded::adds_room(self)
    }

    fn make_room_for_waiting(&mut self) -> Result<(), AllocError> {
        Recorded::make_room_for_waiting(self)
    }

    fn take_get_wake(&mut self, caller: &mut Caller<Line<T>, H>) -> Option<Ticket> {
        Recorded::take_get_wake(self, caller)
    }

    fn take_add_wake(&mut self, caller: &mut Caller<Line<T>, H>) -> Option<Ticket> {
        Recorded::take_add_wake(self, caller)
    }

    fn note_ending(&mut self, caller: &mut Caller<Line<T>, H>, drains: usize, departing: u64) {
        Recorded::note_ending(self, caller, drains, departing);
    }

    fn is_wake_due(&mut self, caller: &mut Caller<Line<T>, H>) -> bool {
        Recorded::is_wake_due(self, caller)
    }
}
