//! How a future is told, and when it is to be polled again.
ghost use Rattle.std.specs.Prelude.{◌≡◌, ◌⊎◌, true, None, is_some, IfSome, IsNone, IsSomeAnd};
ghost use Rattle.futures.specs.Task.{Hears, IsArmed, Keeps};
ghost use Rattle.deadpool_lock.specs.Asked.{IsOf};

use deadpool_parts::{Clock, Moment};
use futures::task::{Context, Poll, Source, Waker};
use std::marker::Model;

/// How a future is told: its own waker, and a source for one that has nothing else to wait for.
#[derive(Drop)]
pub struct Registration {
    registered: Registered,
    nowhere: Source,
}

/// What a task has registered with: its waker, which a step that leaves it waiting keeps in exchange for the one that
/// it kept before. A registration in a poll puts it there. Where there is none, as of nobody, the step keeps what it
/// kept. A waker that is dropped wakes its task. Contracts see the waker.
#[derive(Drop)]
pub struct Registered {
    pub(crate) waker: Option<Waker>,
}

impl Model for Registered {
    ghost use Rattle.std.specs.Prelude.{Option};
    ghost use Rattle.futures.specs.declared.task.waker.Waker.{Waker};

    ghost Value = { Option Waker };

    ghost view = { λ r. r.waker };
}

impl Registered {
    /// What one has that hears nothing, such as an object that comes back. It cannot come to wait.
    pub fn nobody() -> Self
        ensures { result ≡ None }
    {
        Registered { waker: None }
    }

    /// Whether there is a waker. There is none if no memory was found for it, or of nobody.
    pub fn has_waker(&self) -> bool
        ensures { result ≡ is_some self.now }
    {
        self.waker.is_some()
    }
}

impl Registration {
    /// Without a waker, which the first poll makes.
    pub fn new() -> Self
        ensures { result.registered ≡ None }
    {
        Registration {
            registered: Registered::nobody(),
            nowhere: Source::new(),
        }
    }

    /// Registers the task that polls, before a step that may leave it waiting: with a source, or nowhere. Its waker is
    /// at hand then. If none could be made, the task asks for another poll.
    pub fn register(&mut self, source: Option<&Source>, cx: &mut Context<'_>) -> &mut Registered
        ensures armed { IsArmed cx.new }
        ensures heard { IfSome source.entry (λ s. Hears cx.new s.now.id) }
        ensures left { IsOf result.now cx.new }
        ensures kept { Keeps cx.old cx.new }
    {
        let source = source.unwrap_or(&self.nowhere);
        let _pending: Poll<()> = cx.register(source, &mut self.registered.waker);
        &mut self.registered
    }
}

/// Has the clock wake the task at a deadline, if there is one; otherwise takes the alarm of an earlier deadline back.
pub fn wake_at<C: Clock>(
    clock: &C,
    deadline: Option<Moment>,
    alarm: &mut Option<C::Alarm>,
    cx: &mut Context<'_>,
)
    ensures taken_back { IsNone deadline → IsNone alarm.new }
    ensures kept { Keeps cx.old cx.new }
{
    match deadline {
        Some(at) => clock.wake_at(at, alarm, cx),
        None => *alarm = None,
    }
}
