//! What a drain does under the lock of its pool.
ghost use Rattle.std.specs.Prelude.{◌≡◌, ◌⊎◌, false, None, IsSomeAnd};
ghost use Rattle.std.specs.Option.{option_or};
ghost use Rattle.deadpool_lock.specs.Ends.{IsGone, Stands, has_come, listed, status_in, without};
ghost use Rattle.deadpool_lock.specs.Places.{Follows, waker_at};
ghost use Rattle.deadpool_unmanaged.specs.Closing.{ShowsLeft, is_drained};
ghost use Rattle.deadpool_unmanaged.specs.Room.{SameRoom};
ghost use Rattle.deadpool_unmanaged.specs.StateSteps.{closed_pool};
ghost use Rattle.deadpool_unmanaged_journal.specs.declared.entry.Entry.TheVariants as entry;
ghost use Rattle.deadpool_unmanaged_journal.specs.declared.owner_step.OwnerReply.TheVariants as reply;
ghost use Rattle.deadpool_unmanaged_journal.specs.declared.owner_step.OwnerStep.TheVariants as step;
ghost use Rattle.deadpool_unmanaged_shared.specs.Drains.{CallsOfDrain, EndsAt, HasClosed};
ghost use Rattle.deadpool_unmanaged_shared.specs.Room.{StaysRoomy};
ghost use Rattle.futures.specs.Poll.{IfReady, OnPending};

use super::Locked;
use deadpool_lock::{DrainError, Ends, Registered};
use deadpool_unmanaged::gate::Ticket;
use deadpool_unmanaged::{Status, laws};
use deadpool_unmanaged_history::KeepsState;
use deadpool_unmanaged_journal::{OwnerReply, OwnerStep};
use futures::task::{Poll, Waker};

impl<T: Drop, S: KeepsState<T>> Locked<T, S> {
    /// Closes the pool at the first poll of a drain, and finds it closed by the caller at each later one. Ends the
    /// drain with the pool's status if its end has come, or if the drain is late. Otherwise its task waits, under its
    /// ticket, until the end; if there is no memory for that, the drain ends too. The waker that is kept no longer is
    /// given out.
    pub fn drain(
        &mut self,
        caller: &mut S::Caller,
        is_first: bool,
        is_late: bool,
        ticket: &mut Option<Ticket>,
        registered: &mut Registered,
    ) -> (Poll<Result<Status, DrainError>>, Option<Waker>)
        requires begun { is_first ≡ false → S.has_closed caller.old }
        ensures begun { S.has_closed caller.new }
        ensures closed { (S.state_of self.new.state).pool.is_open ≡ false }
        ensures pool { ((S.state_of self.new.state).pool ≡ closed_pool (S.state_of self.old.state).pool)
            ⊎ ((S.state_of self.new.state).pool ≡ (S.state_of self.old.state).pool) }
        ensures ends { IfReady result.0 (EndsAt (is_drained (S.state_of self.new.state).pool)
            self.new.ends.departing is_late) }
        ensures waits { OnPending result.0
            ((has_come (is_drained (S.state_of self.new.state).pool) self.new.ends ≡ false)
            × (is_late ≡ false) × IsSomeAnd ticket.new (λ at. Stands at
            (option_or registered.old (waker_at at self.old.ends.wakers)) self.new.ends)) }
        ensures departing { self.new.ends.departing ≡ self.old.ends.departing }
        ensures left { IfReady result.0 (λ _. ticket.new ≡ None) }
        ensures line { IfReady result.0 (λ _. IsGone ticket.old self.old.ends.line self.new.ends.line) }
        ensures room { StaysRoomy (S.state_of self.old.state) self.old.gets self.old.adds
            (S.state_of self.new.state) self.new.gets self.new.adds }
        ensures calls { CallsOfDrain S.keeps S.calls is_first result.0 caller.old caller.new }
        ensures gets { self.new.gets ≡ self.old.gets }
        ensures adds { self.new.adds ≡ self.old.adds }
    {
        S::closers_stay();
        let Locked { state, ends, .. } = self;
        close::<T, S>(state, caller, is_first);
        let is_drained = state.is_drained();
        if !ends.has_come(is_drained) && !is_late && ends.wait(ticket, registered).is_ok() {
            return (Poll::Pending, None);
        }
        let spare = ends.leave(ticket);
        let status = status::<T, S>(state, caller);
        (Poll::Ready(end(status, is_drained, is_late, ends)), spare)
    }

    /// A drain waits no longer. Its waker is given out. It is no step.
    pub fn leave_drain(&mut self, ticket: &mut Option<Ticket>) -> Option<Waker>
        ensures same { S.state_of self.new.state ≡ S.state_of self.old.state }
        ensures gets { self.new.gets ≡ self.old.gets }
        ensures adds { self.new.adds ≡ self.old.adds }
        ensures left { ticket.new ≡ None }
        ensures line { self.new.ends.line.waiters ≡ without ticket.old self.old.ends.line.waiters }
        ensures places { Follows (listed ticket.old self.old.ends.line) None
            self.old.ends.wakers None result self.new.ends.wakers None }
        ensures departing { self.new.ends.departing ≡ self.old.ends.departing }
    {
        self.ends.leave(ticket)
    }
}

// The pool is closed by the first poll, and stays closed.
fn close<T: Drop, S: KeepsState<T>>(state: &mut S, caller: &mut S::Caller, is_first: bool)
    requires begun { is_first ≡ false → S.has_closed caller.old }
    ensures closed { (S.state_of state.new).pool.is_open ≡ false }
    ensures pool { ((S.state_of state.new).pool ≡ closed_pool (S.state_of state.old).pool)
        ⊎ ((S.state_of state.new).pool ≡ (S.state_of state.old).pool) }
    ensures room { SameRoom (S.state_of state.old) (S.state_of state.new) }
    ensures call { HasClosed S.keeps S.calls is_first caller.old caller.new }
{
    if !is_first {
        state.stay_closed(caller);
        return;
    }
    let OwnerReply::Done = state.make_for_owner(caller, &OwnerStep::Close) else {
        unreachable!();
    };
}

// How a closed pool stands, which shows whether an object is left in it.
fn status<T: Drop, S: KeepsState<T>>(state: &mut S, caller: &mut S::Caller) -> Status
    requires closed { (S.state_of state.old).pool.is_open ≡ false }
    ensures shows { ShowsLeft (is_drained (S.state_of state.old).pool) result }
    ensures pool { (S.state_of state.new).pool ≡ (S.state_of state.old).pool }
    ensures room { SameRoom (S.state_of state.old) (S.state_of state.new) }
    ensures call { S.calls (entry.Owner step.Status (reply.Stands result)) caller.old caller.new }
{
    laws::status_shows_what_is_left::<T>();
    match state.make_for_owner(caller, &OwnerStep::Status) {
        OwnerReply::Stands(status) => status,
        _ => unreachable!(),
    }
}

// The end of a drain, with the status of its pool.
fn end(status: Status, is_drained: bool, is_late: bool, ends: &Ends) -> Result<Status, DrainError>
    requires { ShowsLeft is_drained status }
    ensures ends { EndsAt is_drained ends.now.departing is_late result }
    ensures status { status_in result ≡ status }
{
    if ends.has_come(is_drained) {
        Ok(status)
    } else if is_drained {
        Err(DrainError::Departing(status))
    } else if is_late {
        Err(DrainError::Timeout(status))
    } else {
        Err(DrainError::OutOfMemory(status))
    }
}
