//! Runs a script of moves over a pool: it reads one line after the other from standard input, and writes the reply to
//! each before it reads the next.
#![tactic(auto)]

use std::io;
use std::process::ExitCode;

fn main(rt: HostRuntime) -> ExitCode {
    poolrun_engine::run(
        &rt,
        &mut rt.reader(),
        &mut io::writer(&rt),
        &mut rt.stderr(),
    )
}
