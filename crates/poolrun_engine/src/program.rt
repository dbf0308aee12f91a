//! A program that does what its arguments say.
use crate::arguments::Task;
use crate::buffers::{builder_of, fill_buffers};
use crate::counting::{count, count_with_journal};
use crate::help::{HELP, HELP_SCRIPT, VERSION};
use deadpool_threads::Host;
use pool_drawing::{draw_journal, draw_script};
use pool_scripts::{Fault, Stopped, check_script, play_script, watch_script, write_out};
use std::env;
use std::io::{BufRead, Write};
use std::process::ExitCode;
use std::random::RandomSource;
use std::rt::Env;

/// Does what the arguments say. With none it plays the script that the reader gives, and writes the replies to the
/// writer. With `check` it compares the replies that are written in the script, and with `watch` it says after each how
/// the pool stands. With `draw` it plays the script, and writes a picture of the run; with `draw journal` it reads a
/// journal, and writes a picture of it. With `threads N M` it reads nothing: in N threads, M times each, one is added
/// to an object of a pool, and the writer is given the pool's status and the sum of its objects; `threads N M journal
/// K` writes the journal of the pool in place of the rest. With `buffers MOST` it puts each line that it reads into a
/// buffer of a pool, and writes which one it was. `--help`, `help script` and `--version` write a text alone.
///
/// A run that ends before its input does says why on `errors`, in a line of its own, and in lines behind it what more
/// there is to say. Gives the status that the program is to end with.
pub fn run<R, B: BufRead, W: Write, E: Write>(
    rt: &R,
    reader: &mut B,
    writer: &mut W,
    errors: &mut E,
) -> ExitCode
where
    R: Host + Env,
{
    match obey(rt, reader, writer) {
        Ok(()) => ExitCode::SUCCESS,
        Err(stopped) => {
            // If this is not written either, the status still says it.
            let _ = writeln!(errors, "{stopped}");
            let _ = errors.flush();
            ExitCode::from(stopped.fault.status())
        }
    }
}

// Does what the arguments after the program's name say. With others than it knows, nothing is read.
fn obey<R, B: BufRead, W: Write>(rt: &R, reader: &mut B, writer: &mut W) -> Result<(), Stopped>
where
    R: Host + Env,
{
    let mut arguments = env::args(rt).map_err(Fault::from_arguments)?;
    let _program = arguments.next();
    match Task::parse(&mut arguments).ok_or(Fault::Usage)? {
        Task::Help => write_out(writer, HELP)?,
        Task::HelpScript => write_out(writer, HELP_SCRIPT)?,
        Task::Version => write_out(writer, VERSION)?,
        Task::Play => play_script(rt, reader, writer)?,
        Task::Check => check(rt, reader, writer)?,
        Task::Draw => draw_script(rt, reader, writer)?,
        Task::DrawJournal => draw_journal(rt.alloc(), reader, writer)?,
        Task::Watch(colour) => watch_script(rt, colour, reader, writer)?,
        Task::Count(crowd) => count(rt, crowd, writer)?,
        Task::Journal(crowd, entries) => count_with_journal(rt, crowd, entries, writer)?,
        Task::Fill(most) => fill_buffers(rt, builder_of(rt.alloc(), most), reader, writer)?,
    }
    Ok(())
}

// Plays a script, and says how many of its replies were compared.
fn check<R, B: BufRead, W: Write>(rt: &R, reader: &mut B, writer: &mut W) -> Result<(), Stopped>
where
    R: RandomSource + AllocGlobal,
{
    let checked = check_script(rt, reader)?;
    let text = format!(in rt.alloc(); "{checked} replies are as written\n")?;
    write_out(writer, text.as_str())?;
    Ok(())
}
