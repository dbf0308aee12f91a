//! Runs a script from any reader to any writer.
use crate::fault::Fault;
use crate::lines::{read_line, without_line_feed, write_out};
use crate::lists::{list_of, managed_moves, unmanaged_moves};
use crate::making::{
    make_drain, make_get, make_managed, make_tally, make_unmanaged, make_unmanaged_drain,
    make_unmanaged_tally, run_managed, run_unmanaged,
};
use crate::manager::{Answer, Answers, Kind};
use crate::opening::{PARTIES, Refusal, ScriptPool, open_pool};
use crate::script;
use crate::script::{Excerpt, LineError, ManagedLine, Reason, ScriptLine, UnmanagedLine};
use crate::stopped::Stopped;
use crate::texts::end_line;
use futures::task::{Context, Doorbell, Solo};
use std::alloc::Global;
use std::io::{BufRead, Write};
use std::random::RandomSource;

/// Plays a script to its end. A line is read only once the reply to the one before it was written.
pub fn play<R, B: BufRead, W: Write>(rt: &R, reader: &mut B, writer: &mut W) -> Result<(), Fault>
where
    R: RandomSource + AllocGlobal,
{
    play_script(rt, reader, writer).map_err(Fault::from)
}

/// The same, and says more of a line that is not in the language.
pub fn play_script<R, B: BufRead, W: Write>(
    rt: &R,
    reader: &mut B,
    writer: &mut W,
) -> Result<(), Stopped>
where
    R: RandomSource + AllocGlobal,
{
    let Ok(task) = Solo::new(rt, Doorbell::spinning()) else {
        return Err(Stopped::from(Fault::OutOfMemory));
    };
    let answers = Answers::new(rt.alloc());
    let mut engine = Engine::new(rt.alloc(), &answers, PARTIES);
    let mut cx = task.begin();
    let ending = play_lines(&mut engine, reader, writer, &mut cx);
    cx.cancel();
    ending
}

fn play_lines<B: BufRead, W: Write>(
    engine: &mut Engine<'_>,
    reader: &mut B,
    writer: &mut W,
    cx: &mut Context<'_>,
) -> Result<(), Stopped> {
    let mut line = Vec::new(engine.alloc);
    for number in 1..=u64::MAX {
        if !read_line(reader, &mut line)? {
            return Ok(());
        }
        if let Err(cause) = engine.play_line(without_line_feed(&line), cx) {
            return Err(Stopped::at(number, cause));
        }
        write_out(writer, engine.reply())?;
    }
    Err(Stopped::from(Fault::InputFailed))
}

/// A script's pool, once there is one, and the reply to its last line.
#[derive(Drop)]
pub struct Engine<'a> {
    alloc: Global,
    answers: &'a Answers,
    parties: usize,
    pool: Option<ScriptPool<'a>>,
    reply: String,
}

impl<'a> Engine<'a> {
    /// One without a pool, which is to have room for so many gets and adds.
    pub fn new(alloc: Global, answers: &'a Answers, parties: usize) -> Self {
        Engine {
            alloc,
            answers,
            parties,
            pool: None,
            reply: String::new(alloc),
        }
    }

    /// The reply to the last line. It is empty if the line has none.
    pub fn reply(&self) -> &str {
        self.reply.as_str()
    }

    /// The pool, once there is one.
    pub fn pool(&self) -> Option<&ScriptPool<'a>> {
        self.pool.as_ref()
    }

    /// Does what a line says, and keeps the reply. Before there is a pool, only the lines that make one are in the
    /// language; after that, only those of its kind.
    pub fn play_line(&mut self, line: &[u8], cx: &mut Context<'_>) -> Result<(), LineError> {
        self.reply.clear();
        if script::is_skipped(line) {
            return Ok(());
        }
        let Engine {
            alloc,
            answers,
            parties,
            pool,
            reply,
        } = self;
        match pool {
            None => open(pool, *alloc, answers, *parties, line, reply),
            Some(ScriptPool::Managed(trial)) => match script::parse_script_line(*alloc, line)? {
                ScriptLine::Get(now) => make_get(trial, now, cx, reply),
                ScriptLine::Drain => make_drain(trial, cx, reply),
                ScriptLine::Tally => make_tally(trial, cx, reply),
                ScriptLine::Plain(ManagedLine::Answer(kind, words)) => {
                    answer(answers, kind, words, reply)
                }
                ScriptLine::Plain(ManagedLine::Move(next)) => make_managed(trial, next, cx, reply),
            },
            Some(ScriptPool::Unmanaged(trial)) => match script::parse_unmanaged_line(line)? {
                UnmanagedLine::Drain => make_unmanaged_drain(trial, reply),
                UnmanagedLine::Tally => make_unmanaged_tally(trial, reply),
                UnmanagedLine::Move(next) => make_unmanaged(trial, next, reply),
            },
        }
    }

    /// Does what a line says that may be a list of moves, and appends the reply.
    pub fn play(
        &mut self,
        line: &str,
        cx: &mut Context<'_>,
        text: &mut String,
    ) -> Result<(), LineError> {
        match list_of(line) {
            Some(list) => self.play_list(list, cx, text),
            None => {
                self.play_line(line.as_bytes(), cx)?;
                text.push_str(self.reply())?;
                Ok(())
            }
        }
    }

    fn play_list(
        &mut self,
        list: &str,
        cx: &mut Context<'_>,
        text: &mut String,
    ) -> Result<(), LineError> {
        let alloc = self.alloc;
        match &mut self.pool {
            None => Err(Reason::NoPool(Excerpt::of("list")))?,
            Some(ScriptPool::Managed(trial)) => {
                run_managed(trial, managed_moves(alloc, list)?, cx, text)
            }
            Some(ScriptPool::Unmanaged(trial)) => {
                run_unmanaged(trial, unmanaged_moves(alloc, list)?, text)
            }
        }
    }
}

// Makes the pool that a line asks for. One that is refused leaves the script without a pool.
fn open<'a>(
    pool: &mut Option<ScriptPool<'a>>,
    alloc: Global,
    answers: &'a Answers,
    parties: usize,
    line: &[u8],
    reply: &mut String,
) -> Result<(), LineError> {
    match open_pool(alloc, answers, parties, script::parse_pool(alloc, line)?) {
        Ok(opened) => {
            *pool = Some(opened);
            confirm(reply)
        }
        Err(refusal) => refuse(refusal, reply),
    }
}

// The reply to a line that has nothing else to say.
fn confirm(reply: &mut String) -> Result<(), LineError> {
    reply.push_str("ok\n")?;
    Ok(())
}

/// The reply to a line whose pool is refused. If there was no memory to read its configuration, it has none.
pub fn refuse(refusal: Refusal, reply: &mut String) -> Result<(), LineError> {
    if refusal == Refusal::Unread {
        return Err(LineError::OutOfMemory);
    }
    write!(reply, "error {refusal}")?;
    end_line(reply)?;
    Ok(())
}

// The next polls of this kind are to be answered so.
fn answer(
    answers: &Answers,
    kind: Kind,
    words: Vec<Answer>,
    reply: &mut String,
) -> Result<(), LineError> {
    answers.append(kind, words)?;
    confirm(reply)
}
