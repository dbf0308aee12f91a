//! Scripts that are tests: a line may have its reply behind it.
use crate::engine::Engine;
use crate::fault::Fault;
use crate::lines::{read_line, without_line_feed};
use crate::manager::Answers;
use crate::opening::PARTIES;
use crate::script::is_skipped;
use crate::stopped::{Detail, Stopped};
use futures::task::{Context, Doorbell, Solo};
use std::alloc::{AllocError, Global};
use std::io::BufRead;
use std::random::RandomSource;

// Stands between a line and its reply.
const ARROW: &[u8] = b" => ";

/// What a line says, and the reply that is written behind it, if one is: behind the last arrow, since no reply has one.
/// A comment has none.
pub fn sides_of(line: &[u8]) -> (&[u8], Option<&[u8]>) {
    if is_skipped(line) || line.len() < ARROW.len() {
        return (line, None);
    }
    for start in (0..line.len() - ARROW.len() + 1).rev() {
        if line[start..].starts_with(ARROW) {
            return (&line[..start], Some(&line[start + ARROW.len()..]));
        }
    }
    (line, None)
}

/// Hears of each line, once its reply is there and is as written.
pub trait Hearer {
    fn hear(&mut self, engine: &Engine<'_>) -> Result<(), Stopped>;
}

// Says nothing.
#[derive(Drop)]
struct Silent;

impl Hearer for Silent {
    fn hear(&mut self, _engine: &Engine<'_>) -> Result<(), Stopped> {
        Ok(())
    }
}

/// Plays a script to its end, and compares each reply with the one that is written behind its line. Says how many lines
/// have one. The first reply that is another ends the run.
pub fn check_script<R, B: BufRead>(rt: &R, reader: &mut B) -> Result<u64, Stopped>
where
    R: RandomSource + AllocGlobal,
{
    play_heard(rt, reader, &mut Silent)
}

/// The same, while another hears of each line.
pub fn play_heard<R, B: BufRead, H: Hearer>(
    rt: &R,
    reader: &mut B,
    hearer: &mut H,
) -> Result<u64, Stopped>
where
    R: RandomSource + AllocGlobal,
{
    let Ok(task) = Solo::new(rt, Doorbell::spinning()) else {
        return Err(Stopped::from(Fault::OutOfMemory));
    };
    let answers = Answers::new(rt.alloc());
    let mut engine = Engine::new(rt.alloc(), &answers, PARTIES);
    let mut cx = task.begin();
    let ending = play_lines(rt.alloc(), &mut engine, reader, hearer, &mut cx);
    cx.cancel();
    ending
}

fn play_lines<B: BufRead, H: Hearer>(
    alloc: Global,
    engine: &mut Engine<'_>,
    reader: &mut B,
    hearer: &mut H,
    cx: &mut Context<'_>,
) -> Result<u64, Stopped> {
    let mut line = Vec::new(alloc);
    let mut compared = 0u64;
    for number in 1..=u64::MAX {
        if !read_line(reader, &mut line)? {
            return Ok(compared);
        }
        let (said, written) = sides_of(without_line_feed(&line));
        if let Err(cause) = engine.play_line(said, cx) {
            return Err(Stopped::at(number, cause));
        }
        if let Some(written) = written {
            compare(alloc, number, written, engine.reply())?;
            compared = compared.saturating_add(1);
        }
        hearer.hear(engine)?;
    }
    Err(Stopped::from(Fault::InputFailed))
}

/// Sees that the reply to the line with this number is the one that is written behind it.
pub fn compare(alloc: Global, number: u64, written: &[u8], reply: &str) -> Result<(), Stopped> {
    let came = reply.strip_suffix('\n').unwrap_or(reply);
    if written == came.as_bytes() {
        return Ok(());
    }
    Err(Stopped {
        fault: Fault::OtherWritten(number),
        detail: Detail::Replies {
            written: printed(alloc, written)?,
            came: String::from_str(alloc, came)?,
        },
    })
}

// Bytes as text. Those that cannot be printed are shown as `?`.
fn printed(alloc: Global, bytes: &[u8]) -> Result<String, AllocError> {
    let mut text = String::new(alloc);
    for byte in bytes {
        let is_printed = byte.is_ascii_graphic() || *byte == b' ';
        text.push(if is_printed { char::from(*byte) } else { '?' })?;
    }
    Ok(text)
}
