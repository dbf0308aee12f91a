//! Futures that ask something of what is shared: one with a handle of its own, and one that borrows a handle.
ghost use Rattle.std.specs.Prelude.{◌≡◌, ◌⊎◌, ⊤, Some, None, IfOk, IfErr, IfSome};
ghost use Rattle.deadpool_lock.specs.Asked.{Asks, Gives, HasHandle, IsAsking, IsLeft, IsOf, IsRefused};
ghost use Rattle.deadpool_lock.specs.Asked.{PollsAsked, Turns};
ghost use Rattle.futures.specs.Poll.{IfReady, OnPending};
ghost use Rattle.futures.specs.Task.{Covers, Hears, IsArmed, Keeps};
ghost use Rattle.futures.specs.declared.task.Poll.{Poll};
ghost use Rattle.deadpool_lock.specs.declared.request.Stage.{Stage as StageOf};

use crate::{Counted, Handle, Registered, Registration};
use futures::Future;
use futures::task::{Context, Poll, Source};
use std::alloc::AllocError;
use std::marker::Model;
use std::mem;

/// What a future asks of what is shared, from its call to its end.
pub trait Request {
    /// What is asked.
    type Shared: Counted + Drop;

    /// What is kept for its output until it ends.
    type Kept: Drop;

    type Output;

    /// What is left of it once it was given up: mostly the name in which it made its last step.
    type Left: Drop;

    // Holds of it at a stage of its future.
    ghost fits: { StageOf Self.Kept → Self → Type 0 } = { λ _ _. ⊤ };

    // Holds of each output that it may give, with what is kept for it.
    ghost gives: { Self → Self.Kept → Self.Output → Type 0 } = { λ _ _ _. ⊤ };

    // Holds of each output by which it says that it never began.
    ghost refuses: { Self → Self.Output → Type 0 } = { λ _ _. ⊤ };

    // Relates it before a poll, what the poll comes to, and it after the poll.
    ghost polls: { Self.Shared → Self → Poll Self.Output → Self → Type 0 } = { λ _ _ _ _. ⊤ };

    // Relates it, while it asks, to what is left of it once it was given up.
    ghost cancels: { Self.Shared → Self → Self.Left → Type 0 } = { λ _ _ _. ⊤ };

    /// One poll, in a task that has registered with what is shared before, by the waker that it lends. A poll that
    /// gives an output ends the stage, and may take what was kept there.
    fn poll(
        &mut self,
        stage: &mut Stage<Self::Kept>,
        shared: &Self::Shared,
        registered: &mut Registered,
        cx: &mut Context<'_>,
    ) -> Poll<Self::Output>
        requires asks { IsAsking stage.old }
        requires fits { fits stage.old self.old }
        requires registered { Hears cx.old (Self.Shared.source_of shared.now) }
        requires heard { IsOf registered.old cx.old }
        ensures turns { Turns stage.old result stage.new }
        ensures gives { IfReady result (Gives gives refuses stage.old self.old) }
        ensures same { OnPending result
            ((kept : _) (x : _) → gives self.new kept x → gives self.old kept x) }
        ensures polls { polls shared.now self.old result self.new }
        ensures fits { fits stage.new self.new }
        ensures kept { Keeps cx.old cx.new };

    /// Is given up while it asks, and gives back what it holds.
    fn cancel(self, kept: Self::Kept, shared: &Self::Shared) -> Self::Left
        requires { fits (Stage.Asking kept) self }
        ensures { cancels shared.now self result };

    /// The output of one that never began.
    fn refuse(&mut self) -> Self::Output
        requires { fits Stage.Refused self.old }
        ensures refuses { refuses self.old result }
        ensures ended { fits Stage.Ended self.new };

    /// Is let go of, since it never began or has ended.
    fn leave(self)
        requires { fits Stage.Refused self ⊎ fits Stage.Ended self };
}

/// How far a future is.
#[derive(Drop)]
pub enum Stage<K: Drop> {
    /// It asks, with what is kept for its output.
    Asking(K),
    /// There was no memory for it. Its first poll says so.
    Refused,
    Ended,
}

impl<K: Drop> Stage<K> {
    /// Ends it, and gives what was kept for the output.
    #[inline(always)]
    pub fn end(&mut self) -> K
        requires { IsAsking self.old }
        ensures kept { self.old ≡ Stage.Asking result }
        ensures ended { self.new ≡ Stage.Ended }
    {
        let Stage::Asking(kept) = mem::replace(self, Stage::Ended) else {
            unreachable!();
        };
        kept
    }
}

/// A request as a future, with a handle of its own, which it holds until it is dropped. It registers before each poll
/// of the request. One that has ended stays pending. Dropping it gives up a request that has not ended, and then its
/// handle.
pub struct Owned<Q: Request> {
    request: Q,
    // None if it never began.
    handle: Option<Handle<Q::Shared>>,
    stage: Stage<Q::Kept>,
    registration: Registration,
}

impl<Q: Request> Model for Owned<Q> {
    ghost use Rattle.deadpool_lock.specs.Asked.{Asked, HasHandle};

    ghost Value = { Asked Q.Shared Q.Kept Q };

    ghost view = { λ f. record {
      shared = f.handle;
      stage = f.stage;
      request = f.request;
      registration = f.registration;
    } };

    ghost invariant = { λ f. HasHandle f.handle f.stage × Q.fits f.stage f.request };
}

impl<Q: Request> Owned<Q> {
    /// A request that was not polled yet, with its handle and what is kept for its output, or what is told if there was
    /// no memory for these.
    #[inline(always)]
    pub fn new(begun: Result<(Handle<Q::Shared>, Q::Kept), AllocError>, request: Q) -> Self
        requires new { (kept : _) → Q.fits (Stage.Asking kept) request }
        requires unbegun { Q.fits Stage.Refused request }
        ensures asks { IfOk begun (λ b. Asks b.0 b.1 request result) }
        ensures refused { IfErr begun (λ _. IsRefused None request result) }
    {
        let (handle, stage) = match begun {
            Ok((handle, kept)) => (Some(handle), Stage::Asking(kept)),
            Err(AllocError) => (None, Stage::Refused),
        };
        Owned {
            handle,
            stage,
            request,
            registration: Registration::new(),
        }
    }

    /// Gives it up, as its drop does, and returns what is left of a request that has not ended.
    #[inline(always)]
    pub fn give_up(self) -> Option<Q::Left>
        ensures left { IsLeft Q.cancels self.shared self.stage self.request result }
        ensures uncounted { IfSome self.shared Q.Shared.uncounts }
    {
        if matches!(self.stage, Stage::Asking(_)) {
            return Some(self.cancel_and_let_go());
        }
        let Self {
            handle,
            stage: _,
            request,
            registration: _,
        } = self;
        request.leave();
        if let Some(handle) = handle {
            drop(handle);
        }
        None
    }

    // Gives up a request that has not ended, and then the handle.
    #[cold]
    #[inline(never)]
    fn cancel_and_let_go(self) -> Q::Left
        requires { IsAsking self.stage }
        ensures left { IsLeft Q.cancels self.shared self.stage self.request (Some result) }
        ensures uncounted { IfSome self.shared Q.Shared.uncounts }
    {
        let Self {
            handle,
            mut stage,
            request,
            registration: _,
        } = self;
        let Some(handle) = handle else {
            unreachable!();
        };
        request.cancel(stage.end(), handle.shared())
    }
}

// Registers, and polls a request that has not ended.
#[inline(always)]
fn poll_stage<Q: Request>(
    stage: &mut Stage<Q::Kept>,
    request: &mut Q,
    shared: &Q::Shared,
    registration: &mut Registration,
    cx: &mut Context<'_>,
) -> Poll<Q::Output>
    requires { Q.fits stage.old request.old }
    ensures fits { Q.fits stage.new request.new }
    ensures gives { IfReady result (Gives Q.gives Q.refuses stage.old request.old) }
    ensures same { OnPending result ((x : _) → Gives Q.gives Q.refuses stage.new request.new x
        → Gives Q.gives Q.refuses stage.old request.old x) }
    ensures turns { Turns stage.old result stage.new }
    ensures polls { PollsAsked Q.polls (Some shared.now) stage.old request.old result request.new }
    ensures armed { OnPending result (IsArmed cx.new) }
    ensures heard { OnPending result (Hears cx.new (Q.Shared.source_of shared.now)) }
    ensures kept { Keeps cx.old cx.new }
{
    if !matches!(stage, Stage::Asking(_)) {
        return poll_rest(stage, request, Some(shared.source()), registration, cx);
    }
    let registered = registration.register(Some(shared.source()), cx);
    request.poll(stage, shared, registered, cx)
}

// A poll of one that asks nothing, with what it registers with, if there is anything.
#[cold]
#[inline(never)]
fn poll_rest<Q: Request>(
    stage: &mut Stage<Q::Kept>,
    request: &mut Q,
    source: Option<&Source>,
    registration: &mut Registration,
    cx: &mut Context<'_>,
) -> Poll<Q::Output>
    requires rests { IsAsking stage.old → ⊥ }
    requires fits { Q.fits stage.old request.old }
    ensures fits { Q.fits stage.new request.new }
    ensures gives { IfReady result (Gives Q.gives Q.refuses stage.old request.old) }
    ensures turns { Turns stage.old result stage.new }
    ensures polls { PollsAsked Q.polls None stage.old request.old result request.new }
    ensures armed { OnPending result (IsArmed cx.new) }
    ensures heard { OnPending result (IfSome source.entry (λ s. Hears cx.new s.now.id)) }
    ensures kept { Keeps cx.old cx.new }
{
    registration.register(source, cx);
    if !matches!(stage, Stage::Refused) {
        return Poll::Pending;
    }
    *stage = Stage::Ended;
    Poll::Ready(request.refuse())
}

impl<Q: Request> Future for Owned<Q> {
    type Output = Q::Output;

    ghost use Rattle.std.specs.Prelude.{IsSomeAnd};

    ghost needs = { λ future s. IsSomeAnd future.shared (λ shared. s ≡ Q.Shared.source_of shared) };

    // One that has ended gives nothing more.
    ghost gives = { λ future. Gives Q.gives Q.refuses future.stage future.request };

    #[inline(always)]
    fn poll(&mut self, cx: &mut Context<'_>) -> Poll<Q::Output>
        ensures value { IfReady result (Gives Q.gives Q.refuses self.old.stage self.old.request) }
        ensures again { OnPending result ⊤ }
        ensures same { OnPending result ((x : _) →
            Gives Q.gives Q.refuses self.new.stage self.new.request x
            → Gives Q.gives Q.refuses self.old.stage self.old.request x) }
        ensures registered { OnPending result (Covers cx.new
            (λ s. IsSomeAnd self.new.shared (λ shared. s ≡ Q.Shared.source_of shared))) }
        ensures kept { Keeps cx.old cx.new }
        ensures shared { self.new.shared ≡ self.old.shared }
        ensures turns { Turns self.old.stage result self.new.stage }
        ensures polls { PollsAsked Q.polls self.old.shared self.old.stage self.old.request
            result self.new.request }
    {
        let Some(handle) = &self.handle else {
            return poll_rest(
                &mut self.stage,
                &mut self.request,
                None,
                &mut self.registration,
                cx,
            );
        };
        poll_stage(
            &mut self.stage,
            &mut self.request,
            handle.shared(),
            &mut self.registration,
            cx,
        )
    }
}

impl<Q: Request> Drop for Owned<Q> {
    #[inline(always)]
    fn drop(self)
        ensures left { (left : _) × IsLeft Q.cancels self.shared self.stage self.request left }
        ensures uncounted { IfSome self.shared Q.Shared.uncounts }
    {
        drop(self.give_up());
    }
}

/// A request as a future that borrows a handle, and is none itself. Otherwise it is as an `Owned`.
pub struct Borrowed<'a, Q: Request> {
    request: Q,
    handle: &'a Handle<Q::Shared>,
    stage: Stage<Q::Kept>,
    registration: Registration,
}

impl<'a, Q: Request> Model for Borrowed<'a, Q> {
    ghost use Rattle.std.specs.Prelude.{Some};
    ghost use Rattle.deadpool_lock.specs.Asked.{Asked};

    ghost Value = { Asked Q.Shared Q.Kept Q };

    ghost view = { λ f. record {
      shared = Some f.handle.now;
      stage = f.stage;
      request = f.request;
      registration = f.registration;
    } };

    ghost invariant = { λ f. Q.fits f.stage f.request };
}

impl<'a, Q: Request> Borrowed<'a, Q> {
    /// A request that was not polled yet, with what is kept for its output, or what is told if there was no memory for
    /// that.
    #[inline(always)]
    pub fn new(handle: &'a Handle<Q::Shared>, kept: Result<Q::Kept, AllocError>, request: Q) -> Self
        requires new { (kept : _) → Q.fits (Stage.Asking kept) request }
        requires unbegun { IfErr kept (λ _. Q.fits Stage.Refused request) }
        ensures asks { IfOk kept (λ k. Asks handle.now k request result) }
        ensures refused { IfErr kept (λ _. IsRefused (Some handle.now) request result) }
    {
        let stage = match kept {
            Ok(kept) => Stage::Asking(kept),
            Err(AllocError) => Stage::Refused,
        };
        Borrowed {
            handle,
            stage,
            request,
            registration: Registration::new(),
        }
    }

    /// Exchanges what it hears by. A task that keeps that from one future to the next is registered already.
    #[inline]
    pub fn exchange_registration(&mut self, registration: &mut Registration)
        ensures taken { self.new ≡ record self.old { registration = registration.old } }
        ensures given { registration.new ≡ self.old.registration }
    {
        mem::swap(&mut self.registration, registration);
    }

    /// Gives it up, as its drop does, and returns what is left of a request that has not ended.
    #[inline(always)]
    pub fn give_up(self) -> Option<Q::Left>
        ensures left { IsLeft Q.cancels self.entry.shared self.entry.stage self.entry.request result }
    {
        if matches!(self.stage, Stage::Asking(_)) {
            return Some(self.cancel());
        }
        let Self {
            handle: _,
            stage: _,
            request,
            registration: _,
        } = self;
        request.leave();
        None
    }

    // Gives up a request that has not ended.
    #[cold]
    #[inline(never)]
    fn cancel(self) -> Q::Left
        requires { IsAsking self.stage }
        ensures left { IsLeft Q.cancels self.entry.shared self.entry.stage self.entry.request (Some result) }
    {
        let Self {
            handle,
            mut stage,
            request,
            registration: _,
        } = self;
        request.cancel(stage.end(), handle.shared())
    }
}

impl<'a, Q: Request> Future for Borrowed<'a, Q> {
    type Output = Q::Output;

    ghost use Rattle.std.specs.Prelude.{IsSomeAnd};

    ghost needs = { λ future s. IsSomeAnd future.shared (λ shared. s ≡ Q.Shared.source_of shared) };

    // One that has ended gives nothing more.
    ghost gives = { λ future. Gives Q.gives Q.refuses future.stage future.request };

    #[inline(always)]
    fn poll(&mut self, cx: &mut Context<'_>) -> Poll<Q::Output>
        ensures value { IfReady result (Gives Q.gives Q.refuses self.old.stage self.old.request) }
        ensures again { OnPending result ⊤ }
        ensures same { OnPending result ((x : _) →
            Gives Q.gives Q.refuses self.new.stage self.new.request x
            → Gives Q.gives Q.refuses self.old.stage self.old.request x) }
        ensures registered { OnPending result (Covers cx.new
            (λ s. IsSomeAnd self.new.shared (λ shared. s ≡ Q.Shared.source_of shared))) }
        ensures kept { Keeps cx.old cx.new }
        ensures shared { self.new.shared ≡ self.old.shared }
        ensures turns { Turns self.old.stage result self.new.stage }
        ensures polls { PollsAsked Q.polls self.old.shared self.old.stage self.old.request
            result self.new.request }
    {
        poll_stage(
            &mut self.stage,
            &mut self.request,
            self.handle.shared(),
            &mut self.registration,
            cx,
        )
    }
}

impl<'a, Q: Request> Drop for Borrowed<'a, Q> {
    #[inline(always)]
    fn drop(self)
        ensures { (left : _)
            × IsLeft Q.cancels self.entry.shared self.entry.stage self.entry.request left }
    {
        drop(self.give_up());
    }
}
