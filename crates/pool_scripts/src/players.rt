//! Plays lines over the pool of a script, or over one that a test has made.
use crate::engine::Engine;
use crate::lists::{list_of, managed_moves};
use crate::making::{make_managed, run_managed};
use crate::manager::Answers;
use crate::script::{Excerpt, LineError, ManagedLine, Reason, is_skipped, parse_managed};
use deadpool_managed::{AsyncHook, Manager, SyncHook};
use deadpool_trial::Trial;
use futures::task::Context;
use futures::test::MockTask;
use std::alloc::{AllocError, Global};
use std::fmt;

/// Plays lines.
pub trait Player {
    /// Plays a line, and appends the reply, if the line has one.
    fn play(&mut self, line: &str, reply: &mut String) -> Result<(), AllocError>;
}

/// Over the pool of a script, which its lines make.
#[derive(Drop)]
pub struct ScriptPlayer<'a> {
    task: &'a MockTask,
    answers: &'a Answers,
    engine: Engine<'a>,
}

impl<'a> ScriptPlayer<'a> {
    /// No pool is there yet. It is to have room for so many gets and adds.
    pub fn new(alloc: Global, task: &'a MockTask, answers: &'a Answers, parties: usize) -> Self {
        ScriptPlayer {
            task,
            answers,
            engine: Engine::new(alloc, answers, parties),
        }
    }
}

impl Player for ScriptPlayer<'_> {
    fn play(&mut self, line: &str, reply: &mut String) -> Result<(), AllocError> {
        let ScriptPlayer {
            task,
            answers,
            engine,
        } = self;
        match line {
            "calls" => answers.calls.write(reply),
            "woken" => reply.push_str(yes_or_no(task.is_woken())),
            _ => tell(task.enter(|cx| engine.play(line, cx, reply)), reply),
        }
    }
}

/// Over a managed pool that a test has made.
#[derive(Drop)]
pub struct TrialPlayer<'a, M: Manager, F: SyncHook<M>, A: AsyncHook<M>, C: Drop> {
    alloc: Global,
    task: &'a MockTask,
    trial: Trial<M, F, A, C>,
}

impl<'a, M: Manager, F: SyncHook<M>, A: AsyncHook<M>, C: Drop> TrialPlayer<'a, M, F, A, C> {
    /// Its moves are made in this task.
    pub fn new(alloc: Global, task: &'a MockTask, trial: Trial<M, F, A, C>) -> Self {
        TrialPlayer { alloc, task, trial }
    }
}

impl<M: Manager<Type = u64>, F: SyncHook<M>, A: AsyncHook<M>, C: Drop> Player
    for TrialPlayer<'_, M, F, A, C>
where
    M::Error: fmt::Display,
{
    fn play(&mut self, line: &str, reply: &mut String) -> Result<(), AllocError> {
        let TrialPlayer { alloc, task, trial } = self;
        match line {
            "woken" => reply.push_str(yes_or_no(task.is_woken())),
            _ => tell(
                task.enter(|cx| play_over(trial, *alloc, line, cx, reply)),
                reply,
            ),
        }
    }
}

// Does what a line says.
fn play_over<M: Manager<Type = u64>, F: SyncHook<M>, A: AsyncHook<M>, C: Drop>(
    trial: &mut Trial<M, F, A, C>,
    alloc: Global,
    line: &str,
    cx: &mut Context<'_>,
    reply: &mut String,
) -> Result<(), LineError>
where
    M::Error: fmt::Display,
{
    if is_skipped(line.as_bytes()) {
        return Ok(());
    }
    if let Some(list) = list_of(line) {
        return run_managed(trial, managed_moves(alloc, list)?, cx, reply);
    }
    match parse_managed(alloc, line.as_bytes())? {
        ManagedLine::Move(next) => make_managed(trial, next, cx, reply),
        ManagedLine::Answer(_, _) => Err(Reason::Unknown(Excerpt::of("answer")))?,
    }
}

// What a line that is not in the language is replied.
fn tell(played: Result<(), LineError>, reply: &mut String) -> Result<(), AllocError> {
    match played {
        Ok(()) => Ok(()),
        Err(LineError::NotAMove(_)) => reply.push_str("not a move\n"),
        Err(LineError::OutOfMemory) => Err(AllocError),
    }
}

fn yes_or_no(yes: bool) -> &'static str {
    if yes { "yes\n" } else { "no\n" }
}
