//! Plays scripts whose lines stand with their replies.
use crate::manager::Answers;
use crate::mismatch::Mismatch;
use crate::opening::PARTIES;
use crate::players::{Player, ScriptPlayer, TrialPlayer};
use deadpool_builder::PoolBuilder;
use deadpool_managed::{AsyncHook, Manager, SyncHook};
use deadpool_trial::Trial;
use futures::test::MockTask;
use std::alloc::{AllocError, Global};
use std::fmt;
use std::random::RandomSource;
use std::test::Fail;

// Stands between a line and its reply.
const ARROW: &str = " => ";

/// Plays the scripts of a text, and fails at the first line that has another reply than is written behind it. The
/// failure has the name of the script, the line's number and text, and the reply that came.
///
/// Empty lines part the scripts. Each has a pool of its own, and its first line, `# name`, is its name. The others are
/// lines of the program with their replies, as `start => party 0`. One that begins with `#` is a comment. The reply to
/// a line that is not in the language is `not a move`, and the script goes on.
///
/// Some lines are not of the program:
/// - `list start; poll 0 0 => party 0; object 0` makes a list of moves in one call. Its replies name no value of an
///   object that a move has handed out. An empty list has the reply `nothing`.
/// - `calls => create 1 recycle 0 poll 1 detach 0` says how often the manager was asked so far: creations and
///   recyclings that were begun, polls of both, and objects that were detached.
/// - `woken => no` says whether the task in which the line before was played is to be polled again.
pub fn expect_script<R: RandomSource + AllocGlobal>(rt: &R, text: &str) -> Result<(), Fail> {
    expect_crowd(rt, PARTIES, text)
}

/// The same with room for so many gets and adds in each pool.
pub fn expect_crowd<R: RandomSource + AllocGlobal>(
    rt: &R,
    parties: usize,
    text: &str,
) -> Result<(), Fail> {
    agree(find_mismatch(rt, parties, text)?)
}

/// The same for one script over a managed pool that is given: it has no pool line, no answers and no `calls`.
pub fn expect_over<R, M, F, A, C>(
    rt: &R,
    builder: PoolBuilder<M, F, A, C>,
    script: &str,
) -> Result<(), Fail>
where
    R: RandomSource + AllocGlobal,
    M: Manager<Type = u64>,
    M::Error: fmt::Display,
    F: SyncHook<M>,
    A: AsyncHook<M>,
    C: Drop,
{
    let task = MockTask::new(rt)?;
    let trial = Trial::new(builder, PARTIES, 0)?;
    let mut player = TrialPlayer::new(rt.alloc(), &task, trial);
    expect_all(rt.alloc(), &mut player, script)
}

fn expect_all<P: Player>(alloc: Global, player: &mut P, script: &str) -> Result<(), Fail> {
    agree(play_all(alloc, player, script, 1)?)
}

// Fails if there is a mismatch.
fn agree(found: Option<Mismatch<'_>>) -> Result<(), Fail> {
    match found {
        None => Ok(()),
        Some(mismatch) => Err(Fail::new(mismatch)),
    }
}

/// The first line of a text that has another reply than is written behind it.
pub fn find_mismatch<'a, R: RandomSource + AllocGlobal>(
    rt: &R,
    parties: usize,
    text: &'a str,
) -> Result<Option<Mismatch<'a>>, Fail> {
    let task = MockTask::new(rt)?;
    let mut first = 1usize;
    for script in text.split("\n\n") {
        let found = play_script(rt.alloc(), &task, parties, script, first)?;
        if found.is_some() {
            return Ok(found);
        }
        let ends = script.bytes().filter(|byte| *byte == b'\n').count();
        first = first.saturating_add(ends).saturating_add(2);
    }
    Ok(None)
}

// Plays one script, whose first line has this number.
fn play_script<'a>(
    alloc: Global,
    task: &MockTask,
    parties: usize,
    script: &'a str,
    first: usize,
) -> Result<Option<Mismatch<'a>>, AllocError> {
    let answers = Answers::new(alloc);
    let mut player = ScriptPlayer::new(alloc, task, &answers, parties);
    play_all(alloc, &mut player, script, first)
}

// Plays the lines of a script up to one that has another reply. The first of them has this number.
fn play_all<'a, P: Player>(
    alloc: Global,
    player: &mut P,
    script: &'a str,
    first: usize,
) -> Result<Option<Mismatch<'a>>, AllocError> {
    let mut reply = String::new(alloc);
    for (at, line) in script.lines().enumerate() {
        let (said, written) = line.split_once(ARROW).unwrap_or((line, ""));
        reply.clear();
        player.play(said, &mut reply)?;
        if !is_line(reply.as_str(), written) {
            return Ok(Some(Mismatch {
                name: script.lines().next().unwrap_or(""),
                number: first.saturating_add(at),
                line,
                reply,
            }));
        }
    }
    Ok(None)
}

// Whether a reply is this line, or there is none.
fn is_line(found: &str, line: &str) -> bool {
    match found.strip_suffix('\n') {
        Some(reply) => reply == line && !line.is_empty(),
        None => found.is_empty() && line.is_empty(),
    }
}
