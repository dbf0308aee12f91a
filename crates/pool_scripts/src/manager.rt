//! The manager and the hooks of a script's pool, which answer as the script says.
use crate::calls::{Calls, count};
use deadpool_managed::{
    AsyncHook, HookError, HookResult, Manager, Metrics, RecycleError, RecycleResult,
};
use futures::task::{Context, Poll};
use std::alloc::{AllocError, Global};
use std::cell::Cell;
use std::collections::VecDeque;
use std::fmt;
use std::rc::Rc;

/// What is asked of the manager and the hooks.
#[derive(Clone, Copy, Debug, PartialEq, Eq)]
pub enum Kind {
    Create,
    Recycle,
    PreRecycle,
    PostRecycle,
    PostCreate,
}

/// How a poll is answered.
#[derive(Clone, Copy, Debug, PartialEq, Eq)]
pub enum Answer {
    Accept,
    Pending,
    Refuse,
    /// The object's value rises by one, and it is accepted.
    Add,
}

/// The answers that are left of those that a script gave, for each kind the earliest first, and how often the manager
/// was asked.
#[derive(Drop)]
pub struct Answers {
    pub calls: Calls,
    alloc: Global,
    create: Cell<VecDeque<Answer>>,
    recycle: Cell<VecDeque<Answer>>,
    pre_recycle: Cell<VecDeque<Answer>>,
    post_recycle: Cell<VecDeque<Answer>>,
    post_create: Cell<VecDeque<Answer>>,
}

impl Answers {
    /// No answer is left of any kind, and nothing was asked.
    pub fn new(alloc: Global) -> Self {
        Answers {
            calls: Calls::new(),
            alloc,
            create: Cell::new(VecDeque::new(alloc)),
            recycle: Cell::new(VecDeque::new(alloc)),
            pre_recycle: Cell::new(VecDeque::new(alloc)),
            post_recycle: Cell::new(VecDeque::new(alloc)),
            post_create: Cell::new(VecDeque::new(alloc)),
        }
    }

    fn of_kind(&self, kind: Kind) -> &Cell<VecDeque<Answer>> {
        match kind {
            Kind::Create => &self.create,
            Kind::Recycle => &self.recycle,
            Kind::PreRecycle => &self.pre_recycle,
            Kind::PostRecycle => &self.post_recycle,
            Kind::PostCreate => &self.post_create,
        }
    }

    /// Appends answers of one kind.
    pub fn append(&self, kind: Kind, answers: Vec<Answer>) -> Result<(), AllocError> {
        let left = self.of_kind(kind);
        let mut queue = left.replace(VecDeque::new(self.alloc));
        let appended = queue.append(&mut VecDeque::from_vec(answers));
        left.set(queue);
        appended
    }

    // The first answer left, which is taken.
    fn next(&self, kind: Kind) -> Answer {
        let left = self.of_kind(kind);
        let mut queue = left.replace(VecDeque::new(self.alloc));
        let answer = queue.pop_front().unwrap_or(Answer::Accept);
        left.set(queue);
        answer
    }

    // Answers a poll that has an object.
    fn respond(&self, kind: Kind, value: &mut u64) -> Poll<Result<(), Refused>> {
        match self.next(kind) {
            Answer::Accept => Poll::Ready(Ok(())),
            Answer::Pending => Poll::Pending,
            Answer::Refuse => Poll::Ready(Err(Refused)),
            Answer::Add => {
                *value = value.saturating_add(1);
                Poll::Ready(Ok(()))
            }
        }
    }
}

/// What the manager says when it refuses.
#[derive(Clone, Copy, Debug, PartialEq, Eq)]
pub struct Refused;

const REFUSED: &str = "refused";

impl fmt::Display for Refused {
    fn fmt<W: fmt::Write>(&self, f: &mut fmt::Formatter<W>) -> fmt::Result {
        f.write_str(REFUSED)
    }
}

/// What a manager and its hooks have the answers of: a reference to them, or a share of them.
pub trait HasAnswers: Drop {
    fn answers(&self) -> &Answers;
}

impl HasAnswers for &Answers {
    fn answers(&self) -> &Answers {
        *self
    }
}

impl HasAnswers for Rc<Answers, Global> {
    fn answers(&self) -> &Answers {
        &**self
    }
}

/// Creates the whole numbers from 0 on, as far as the answers allow.
#[derive(Drop)]
pub struct ScriptManager<H: HasAnswers> {
    told: H,
    next_value: Cell<u64>,
}

impl<H: HasAnswers> ScriptManager<H> {
    /// A manager that has created nothing yet.
    pub fn new(told: H) -> Self {
        ScriptManager {
            told,
            next_value: Cell::new(0),
        }
    }
}

impl<H: HasAnswers> Manager for ScriptManager<H> {
    type Type = u64;

    type Error = Refused;

    type Creating = ();

    type Recycling = ();

    fn create(&self) -> () {
        count(&self.told.answers().calls.created);
    }

    fn poll_create(&self, _creating: &mut (), _cx: &mut Context<'_>) -> Poll<Result<u64, Refused>> {
        count(&self.told.answers().calls.polled);
        match self.told.answers().next(Kind::Create) {
            Answer::Pending => Poll::Pending,
            Answer::Refuse => Poll::Ready(Err(Refused)),
            // A script says `add` only if there is a value.
            Answer::Accept | Answer::Add => {
                let value = self.next_value.get();
                self.next_value.set(value.saturating_add(1));
                Poll::Ready(Ok(value))
            }
        }
    }

    fn recycle(&self, _value: &mut u64, _metrics: &Metrics) -> () {
        count(&self.told.answers().calls.recycled);
    }

    fn poll_recycle(
        &self,
        _recycling: &mut (),
        value: &mut u64,
        _metrics: &Metrics,
        _cx: &mut Context<'_>,
    ) -> Poll<RecycleResult<Refused>> {
        count(&self.told.answers().calls.polled);
        match self.told.answers().respond(Kind::Recycle, value) {
            Poll::Pending => Poll::Pending,
            Poll::Ready(Ok(())) => Poll::Ready(Ok(())),
            Poll::Ready(Err(cause)) => Poll::Ready(Err(RecycleError::Backend(cause))),
        }
    }

    fn detach(&self, _value: &mut u64) {
        count(&self.told.answers().calls.detached);
    }
}

/// A hook that answers as the script says.
#[derive(Drop)]
pub struct ScriptHook<H: HasAnswers> {
    told: H,
    kind: Kind,
}

impl<H: HasAnswers> ScriptHook<H> {
    /// The hook whose answers are of this kind.
    pub fn new(told: H, kind: Kind) -> Self {
        ScriptHook { told, kind }
    }
}

impl<H: HasAnswers> AsyncHook<ScriptManager<H>> for ScriptHook<H> {
    type State = ();

    fn begin(&self, _value: &mut u64, _metrics: &Metrics) -> () {}

    fn poll(
        &self,
        _state: &mut (),
        value: &mut u64,
        _metrics: &Metrics,
        _cx: &mut Context<'_>,
    ) -> Poll<HookResult<Refused>> {
        match self.told.answers().respond(self.kind, value) {
            Poll::Pending => Poll::Pending,
            Poll::Ready(Ok(())) => Poll::Ready(Ok(())),
            Poll::Ready(Err(Refused)) => Poll::Ready(Err(HookError::message(REFUSED))),
        }
    }
}
