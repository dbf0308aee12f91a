//! Plays a script of moves over a pool: it reads one line after the other from standard input, and writes the reply to
//! each before it reads the next. It stands on the pools of one thread alone, so its proof is half of poolrun's.
#![tactic(auto)]

use pool_scripts::play_script;
use std::io;
use std::io::Write;
use std::process::ExitCode;

fn main(rt: HostRuntime) -> ExitCode {
    match play_script(&rt, &mut rt.reader(), &mut io::writer(&rt)) {
        Ok(()) => ExitCode::SUCCESS,
        Err(stopped) => {
            // If this is not written either, the status still says it.
            let _ = writeln!(rt.stderr(), "{stopped}");
            ExitCode::from(stopped.fault.status())
        }
    }
}
