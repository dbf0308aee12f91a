//! Plays a script for one who looks on.
use crate::checking::{Hearer, play_heard};
use crate::engine::Engine;
use crate::lines::write_out;
use crate::standing::{Colour, Standing};
use crate::stopped::Stopped;
use std::io::{BufRead, Write};
use std::random::RandomSource;

/// Plays a script to its end, and writes each reply as it comes, with a line below it that says how the pool stands.
/// Replies that are written behind their lines are compared, and the first that is another ends the run.
pub fn watch_script<R, B: BufRead, W: Write>(
    rt: &R,
    colour: Colour,
    reader: &mut B,
    writer: &mut W,
) -> Result<(), Stopped>
where
    R: RandomSource + AllocGlobal,
{
    let mut watcher = Watcher {
        writer,
        colour,
        text: String::new(rt.alloc()),
    };
    let _compared = play_heard(rt, reader, &mut watcher)?;
    Ok(())
}

// Writes what it hears.
#[derive(Drop)]
struct Watcher<'a, W> {
    writer: &'a mut W,
    colour: Colour,
    // Written anew for each line.
    text: String,
}

impl<W: Write> Hearer for Watcher<'_, W> {
    fn hear(&mut self, engine: &Engine<'_>) -> Result<(), Stopped> {
        if engine.reply().is_empty() {
            return Ok(());
        }
        self.text.clear();
        self.text.push_str(engine.reply())?;
        if let Some(pool) = engine.pool() {
            Standing::of(pool).write(&mut self.text, self.colour)?;
        }
        write_out(self.writer, self.text.as_str())?;
        Ok(())
    }
}
