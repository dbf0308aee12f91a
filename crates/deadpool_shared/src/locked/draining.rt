//! What a drain does under the lock of its pool.
ghost use Rattle.std.specs.Prelude.{◌≡◌, false, None, IsSomeAnd};
ghost use Rattle.std.specs.Option.{option_or};
ghost use Rattle.futures.specs.Poll.{IfReady, OnPending};
ghost use Rattle.deadpool_desk.specs.Closing.{ShowsLeft, is_drained};
ghost use Rattle.deadpool_desk.specs.declared.owner_step.OwnerReply.TheVariants as reply;
ghost use Rattle.deadpool_desk.specs.declared.owner_step.OwnerStep.TheVariants as step;
ghost use Rattle.deadpool_history.specs.History.{HasCalled};
ghost use Rattle.deadpool_journal.specs.declared.entry.Entry.TheVariants as entry;
ghost use Rattle.deadpool_shared.specs.Counts.{counted};
ghost use Rattle.deadpool_lock.specs.Ends.{IsGone, Stands, has_come, listed, status_in, without};
ghost use Rattle.deadpool_lock.specs.Places.{Follows, waker_at};
ghost use Rattle.deadpool_shared.specs.Drains.{CallsOfDrain, EndsAt, HasClosed, IsCloser};

use super::Locked;
use crate::ledgers::{History, Ledgers};
use deadpool_chronicle::Caller;
use deadpool_desk::laws;
use deadpool_history::{Line, Recorded};
use deadpool_lock::{DrainError, Ends, Registered};
use deadpool_managed::gate::Ticket;
use deadpool_managed::{OwnerReply, OwnerStep, Status};
use futures::task::{Poll, Waker};

impl<T: Drop, L: Ledgers> Locked<T, L> {
    /// Closes the pool at the first poll of a drain, and finds it closed by the caller at each later one. Ends the
    /// drain with the pool's status if its end has come, or if the drain is late. Otherwise its task waits, under its
    /// ticket, until the end; if there is no memory for that, the drain ends too. The waker that is kept no longer is
    /// given out.
    pub fn drain(
        &mut self,
        caller: &mut Caller<Line, History<L>>,
        is_first: bool,
        is_late: bool,
        ticket: &mut Option<Ticket>,
        registered: &mut Registered,
    ) -> (Poll<Result<Status, DrainError>>, Option<Waker>)
        requires begun { is_first ≡ false → IsCloser caller.old }
        ensures closed { self.new.recorded.pool.core.desk.is_open ≡ false }
        ensures ends { IfReady result.0 (EndsAt (is_drained self.new.recorded.pool.core.desk)
            self.new.ends.departing is_late) }
        ensures waits { OnPending result.0
            ((has_come (is_drained self.new.recorded.pool.core.desk) self.new.ends ≡ false)
            × (is_late ≡ false) × IsSomeAnd ticket.new (λ at. Stands at
            (option_or registered.old (waker_at at self.old.ends.wakers)) self.new.ends)) }
        ensures departing { self.new.ends.departing ≡ self.old.ends.departing }
        ensures left { IfReady result.0 (λ _. ticket.new ≡ None) }
        ensures line { IfReady result.0 (λ _. IsGone ticket.old self.old.ends.line self.new.ends.line) }
        ensures calls { CallsOfDrain is_first result.0 caller.old caller.new }
        ensures wakers { self.new.wakers ≡ self.old.wakers }
    {
        let Locked { recorded, ends, .. } = self;
        close(recorded, caller, is_first);
        let is_drained = recorded.is_drained();
        if !ends.has_come(is_drained) && !is_late && ends.wait(ticket, registered).is_ok() {
            return (Poll::Pending, None);
        }
        let spare = ends.leave(ticket);
        let status = status(recorded, caller);
        (Poll::Ready(end(status, is_drained, is_late, ends)), spare)
    }

    /// A drain waits no longer. Its waker is given out. It is no step.
    pub fn leave_drain(&mut self, ticket: &mut Option<Ticket>) -> Option<Waker>
        ensures recorded { self.new.recorded ≡ self.old.recorded }
        ensures wakers { self.new.wakers ≡ self.old.wakers }
        ensures left { ticket.new ≡ None }
        ensures line { self.new.ends.line.waiters ≡ without ticket.old self.old.ends.line.waiters }
        ensures places { Follows (listed ticket.old self.old.ends.line) None
            self.old.ends.wakers None result self.new.ends.wakers None }
        ensures departing { self.new.ends.departing ≡ self.old.ends.departing }
    {
        self.ends.leave(ticket)
    }
}

// The pool is closed by the first poll, and stays closed.
fn close<T: Drop, L: Ledgers>(
    recorded: &mut Recorded<T, History<L>>,
    caller: &mut Caller<Line, History<L>>,
    is_first: bool,
)
    requires begun { is_first ≡ false → IsCloser caller.old }
    ensures closed { recorded.new.pool.core.desk.is_open ≡ false }
    ensures counted { counted recorded.new.pool ≡ counted recorded.old.pool }
    ensures call { HasClosed is_first caller.old caller.new }
{
    if !is_first {
        recorded.audit(caller);
        return;
    }
    let OwnerReply::Done = recorded.make_for_owner(caller, &OwnerStep::Close) else {
        unreachable!();
    };
}

// How a closed pool stands, which shows whether something is left in it.
fn status<T: Drop, L: Ledgers>(
    recorded: &mut Recorded<T, History<L>>,
    caller: &mut Caller<Line, History<L>>,
) -> Status
    requires closed { recorded.old.pool.core.desk.is_open ≡ false }
    ensures shows { ShowsLeft (is_drained recorded.old.pool.core.desk) result }
    ensures desk { recorded.new.pool.core.desk ≡ recorded.old.pool.core.desk }
    ensures call { HasCalled (λ e. e ≡ entry.Owner step.Status (reply.Stands result))
        caller.old caller.new }
{
    laws::status_shows_what_is_left::<T>();
    match recorded.make_for_owner(caller, &OwnerStep::Status) {
        OwnerReply::Stands(status) => status,
        _ => unreachable!(),
    }
}

// The end of a drain, with the status of its pool.
fn end(status: Status, is_drained: bool, is_late: bool, ends: &Ends) -> Result<Status, DrainError>
    requires { ShowsLeft is_drained status }
    ensures ends { EndsAt is_drained ends.now.departing is_late result }
    ensures status { status_in result ≡ status }
{
    if ends.has_come(is_drained) {
        Ok(status)
    } else if is_drained {
        Err(DrainError::Departing(status))
    } else if is_late {
        Err(DrainError::Timeout(status))
    } else {
        Err(DrainError::OutOfMemory(status))
    }
}
