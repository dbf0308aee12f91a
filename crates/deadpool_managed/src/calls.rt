//! What hooks make of an object: a list of them, and one.
//!
//! A hook that is pending keeps its state until the next poll; those before it are not asked again.
ghost use Rattle.std.specs.Prelude.{◌≡◌, All, drop, Option};
ghost use Rattle.futures.specs.Task.{Keeps};
ghost use Rattle.deadpool_parts.specs.Program.{Gives};
ghost use Rattle.deadpool_managed.specs.HookLists.{CanCall};
ghost use Rattle.deadpool_managed.specs.Outside.{may_hook};
ghost use Rattle.deadpool_managed.specs.Calls.{ask_hook, ask_hooks};

use crate::{AsyncHook, Hook, HookError, HookResult, Manager, Metrics, SyncHook};
use futures::task::{Context, Poll};

/// How far an object has come in a list of hooks: how many have accepted it, and the state of the pending one.
#[derive(Drop)]
pub struct Position<S> {
    pub accepted: usize,
    pub begun: Option<S>,
}

impl<S> Position<S> {
    /// Before the first hook.
    pub fn start() -> Self
        ensures { result ≡ record { accepted = 0; begun = Option.None } }
    {
        Position {
            accepted: 0,
            begun: None,
        }
    }
}

/// What came of a list of hooks.
#[derive(Drop)]
pub enum Verdict<S, E> {
    Accepted,
    Refused(HookError<E>),
    Pending(Position<S>),
}

// The hooks of a list are asked in turn, from the position on.
pub(crate) fn ask_hooks<M: Manager, F: SyncHook<M>, A: AsyncHook<M>>(
    hooks: &[Hook<F, A>],
    position: Position<A::State>,
    value: &mut M::Type,
    metrics: &Metrics,
    cx: &mut Context<'_>,
) -> Verdict<A::State, M::Error>
    requires { All (CanCall F.can_call) hooks.now }
    ensures gives { Gives (may_hook F.SyncHook A.AsyncHook)
        (ask_hooks position.accepted (drop position.accepted hooks.now) position.begun
        value.old metrics.now) (result, value.new) }
    ensures ready { M.is_ready value.old → M.is_ready value.new }
    ensures kept { Keeps cx.old cx.new }
{
    let Position {
        mut accepted,
        mut begun,
    } = position;
    while accepted < hooks.len() {
        let started = begun.take();
        let (answer, state) = ask_hook(&hooks[accepted], started, value, metrics, cx);
        match answer {
            Poll::Ready(Ok(())) => accepted += 1,
            Poll::Ready(Err(cause)) => return Verdict::Refused(cause),
            Poll::Pending => {
                return Verdict::Pending(Position {
                    accepted,
                    begun: state,
                });
            }
        }
    }
    Verdict::Accepted
}

// One hook is asked; one that was begun goes on. Gives its answer and the state that it left.
fn ask_hook<M: Manager, F: SyncHook<M>, A: AsyncHook<M>>(
    hook: &Hook<F, A>,
    begun: Option<A::State>,
    value: &mut M::Type,
    metrics: &Metrics,
    cx: &mut Context<'_>,
) -> (Poll<HookResult<M::Error>>, Option<A::State>)
    requires { CanCall F.can_call hook.now }
    ensures gives { Gives (may_hook F.SyncHook A.AsyncHook)
        (ask_hook hook.now begun value.old metrics.now) (result.0, result.1, value.new) }
    ensures ready { M.is_ready value.old → M.is_ready value.new }
    ensures kept { Keeps cx.old cx.new }
{
    match hook {
        Hook::Fn(hook) => (Poll::Ready(hook.call(value, metrics)), None),
        Hook::AsyncFn(hook) => match begun {
            Some(mut state) => {
                let answer = hook.poll(&mut state, value, metrics, cx);
                (answer, Some(state))
            }
            None => {
                let mut state = hook.begin(value, metrics);
                let answer = hook.poll(&mut state, value, metrics, cx);
                (answer, Some(state))
            }
        },
    }
}
