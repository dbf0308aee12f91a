//! What a get asks of its pool.
ghost use Rattle.std.specs.Prelude.{◌≡◌, Err};
ghost use Rattle.futures.specs.Task.{Keeps};
ghost use Rattle.deadpool_managed.specs.Outside.{may};
ghost use Rattle.deadpool_managed.specs.Steps.{lent};
ghost use Rattle.deadpool_parts.specs.declared.errors.PoolError.TheVariants.{OutOfMemory};
ghost use Rattle.deadpool_shared.specs.Counts.{IsHeldBy, held_by, waits_by};
ghost use Rattle.deadpool_shared.specs.Gets.{CancelsTo, GivesReady, PollsFrom, PreparesWhile, WaitsWhile};
ghost use Rattle.deadpool_shared.specs.Gets.{getting, held_while, stage_in};
ghost use Rattle.deadpool_shared.specs.Waits.{is_queued};
ghost use Rattle.deadpool_managed.specs.Phases.{stage_of};

use crate::ledgers::{History, Ledgers};
use crate::object::{Checkout, Object};
use crate::seat::Seat;
use crate::shared::Shared;
use crate::shares::Shares;
use crate::timeouts::HasTimeouts;
use crate::waiting::Waiting;
use deadpool_chronicle::Caller;
use deadpool_history::Line;
use deadpool_lock::{Home, Registered, Request, Stage, wake_at};
use deadpool_managed::{AsyncHook, Came, Clock, Manager, PoolError, Progress, StageKind, SyncHook};
use futures::task::{Context, Poll};
use std::marker::{Model, PhantomData};
use std::sync::Wait;

/// What a get asks. It cannot be dropped, since its shares cannot. Contracts see its timeouts, how far it is, how
/// long it waits, and its shares.
pub struct Getting<
    M: Manager,
    F: SyncHook<M>,
    A: AsyncHook<M>,
    C: Clock,
    R: Wait + Drop,
    L: Ledgers,
    W,
    D: HasTimeouts,
> {
    timeouts: D,
    // What its stage holds, once it was handed out shares.
    shares: Option<Shares<L>>,
    // While it is pending with a deadline.
    alarm: Option<C::Alarm>,
    progress: Progress<M, A>,
    waiting: Waiting,
    of: PhantomData<(F, R, W)>,
}

impl<
    M: Manager,
    F: SyncHook<M>,
    A: AsyncHook<M>,
    C: Clock,
    R: Wait + Drop,
    L: Ledgers,
    W,
    D: HasTimeouts,
> Model for Getting<M, F, A, C, R, L, W, D> {
    ghost use Rattle.deadpool_shared.specs.Gets.{Get};

    ghost Value = { Get D M.Type M.Creating M.Recycling A.State };

    ghost view = { λ g. record {
      timeouts = g.timeouts;
      progress = g.progress;
      waiting = g.waiting;
      shares = g.shares;
    } };
}

impl<
    M: Manager,
    F: SyncHook<M>,
    A: AsyncHook<M>,
    C: Clock,
    R: Wait + Drop,
    L: Ledgers,
    W,
    D: HasTimeouts,
> Getting<M, F, A, C, R, L, W, D> {
    // A get that was not polled yet.
    #[inline(always)]
    pub(crate) fn new(timeouts: D) -> Self
        ensures { result ≡ getting timeouts }
    {
        Getting {
            timeouts,
            progress: Progress::new(),
            waiting: Waiting::Never,
            shares: None,
            alarm: None,
            of: PhantomData,
        }
    }
}

impl<
    M: Manager,
    F: SyncHook<M>,
    A: AsyncHook<M>,
    C: Clock,
    R: Wait + Drop,
    L: Ledgers,
    W,
    D: HasTimeouts,
> Request for Getting<M, F, A, C, R, L, W, D>
where
    W: From<Object<M, F, A, C, R, L>>,
{
    type Shared = Shared<M, F, A, C, R, L>;

    // Its object goes back to the pool that was asked.
    type Kept = Home<Shared<M, F, A, C, R, L>>;

    type Output = Result<W, PoolError<M::Error>>;

    // Its caller, if it was handed out shares.
    type Left = Option<Caller<Line, History<L>>>;

    // While it asks it holds what its stage does, prepares the object that it has, and waits under the ticket that it
    // has. Otherwise it holds nothing.
    ghost fits = { λ stage get. IsHeldBy get.shares (held_while stage (stage_in get))
        × PreparesWhile stage (stage_in get) (held_by get.shares)
        × WaitsWhile stage (stage_in get) (waits_by get.shares) };

    ghost gives = { λ _ home ended. GivesReady W.from_gives
        (λ o. M.is_ready o.slot.value.value × (home ≡ o.out.home)) ended };

    ghost refuses = { λ _ ended. ended ≡ Err OutOfMemory };

    ghost polls = { λ shared get turn left. (left.timeouts ≡ get.timeouts)
        × PollsFrom W.from_gives (λ o. o.slot) (λ o. o.out.shares) (λ o. o.waited)
        (λ now. lent M.Manager F.SyncHook A.AsyncHook
        shared.environment now (D.chosen get.timeouts shared.timeouts))
        get.shares (stage_in get) get.waiting left.shares (stage_in left) left.waiting turn };

    ghost cancels = { λ shared get left. CancelsTo
        (may M.Manager F.SyncHook A.AsyncHook shared.environment.manager)
        get.shares (stage_in get) left };

    #[inline(always)]
    fn poll(
        &mut self,
        stage: &mut Stage<Home<Shared<M, F, A, C, R, L>>>,
        shared: &Shared<M, F, A, C, R, L>,
        registered: &mut Registered,
        cx: &mut Context<'_>,
    ) -> Poll<Result<W, PoolError<M::Error>>> {
        let timeouts = self.timeouts.timeouts(&shared.timeouts);
        let mut departure = None;
        let mut seat = Seat::new(shared, self.shares.take(), registered, &mut departure);
        let now = shared.clock.now();
        let came = self
            .progress
            .run(timeouts, &mut seat, &shared.environment, now, cx);
        Shares::put(&mut self.shares, seat.into_shares());
        shared.has_departed(departure);
        match came {
            Came::More | Came::Pending => {
                self.waiting.see(now, is_queued(&self.progress));
                see_to_waking(&shared.clock, &self.progress, &mut self.alarm, cx);
                return Poll::Pending;
            }
            Came::Failed(cause) => {
                self.waiting.see(now, is_queued(&self.progress));
                self.alarm = None;
                *stage = Stage::Ended;
                return refuse(cause);
            }
            Came::Given => self.alarm = None,
        }
        let waited = self.waiting.end(now);
        let Some(slot) = self.progress.give() else {
            return Poll::Pending;
        };
        let Some(shares) = self.shares.take() else {
            unreachable!();
        };
        let out = Checkout::new(stage.end(), shares);
        Poll::Ready(Ok(W::from(Object { out, slot, waited })))
    }

    fn cancel(
        self,
        _home: Home<Shared<M, F, A, C, R, L>>,
        shared: &Shared<M, F, A, C, R, L>,
    ) -> Option<Caller<Line, History<L>>> {
        let Self {
            timeouts: _,
            mut progress,
            waiting: _,
            shares,
            alarm: _,
            of: _,
        } = self;
        let (mut nobody, mut departure) = (Registered::nobody(), None);
        let mut seat = Seat::new(shared, shares, &mut nobody, &mut departure);
        progress.cancel(&mut seat, &shared.environment);
        let caller = seat.leave();
        drop(progress);
        shared.has_departed(departure);
        caller
    }

    fn refuse(&mut self) -> Result<W, PoolError<M::Error>> {
        Err(PoolError::OutOfMemory)
    }

    #[inline(always)]
    fn leave(self) {
        let Self {
            timeouts: _,
            progress: _,
            waiting: _,
            shares,
            alarm: _,
            of: _,
        } = self;
        Shares::hand_in(shares);
    }
}

// Whether a poll left its get in the queue.
fn is_queued<M: Manager, A: AsyncHook<M>>(progress: &Progress<M, A>) -> bool
    ensures { result ≡ is_queued (stage_of progress.now.phase progress.now.slot) }
{
    matches!(progress.kind(), StageKind::Queued(_))
}

// A get ends without an object.
fn refuse<W, E>(cause: PoolError<E>) -> Poll<Result<W, PoolError<E>>>
    ensures { result ≡ Poll.Ready (Err cause) }
{
    Poll::Ready(Err(cause))
}

// Has a get that is pending woken at its deadline, and at once if it waits for nothing.
fn see_to_waking<M: Manager, A: AsyncHook<M>, C: Clock>(
    clock: &C,
    progress: &Progress<M, A>,
    alarm: &mut Option<C::Alarm>,
    cx: &mut Context<'_>,
)
    ensures { Keeps cx.old cx.new }
{
    wake_at(clock, progress.deadline(), alarm, cx);
    if progress.is_going() {
        let _pending: Poll<()> = cx.yield_now();
    }
}
