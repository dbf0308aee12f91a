//! What a get and its return cost, beside a plain pool and a bare lock.
//!
//! The program writes nothing to standard output. With the argument `measure` it does each work often and writes a
//! table to standard error. With a number it does each work so often in a window, and writes the table too. With
//! neither it does each a few times, which shows that all of it runs.
#![tactic(auto)]

mod cancels;
mod crowd;
mod gates;
mod host;
mod line;
mod managed;
mod plain;
mod scale;
mod table;
mod tenths;
mod timed;
mod unmanaged;
mod vector_gate;
mod work;
mod zeros;

use host::Host;
use scale::Scale;
use std::process::ExitCode;
use std::{env, io};
use table::Table;

fn main(rt: HostRuntime) -> ExitCode {
    match run(rt) {
        Ok(()) => ExitCode::SUCCESS,
        Err(error) => {
            // If this is not written either, the status still says it.
            let _ = eprintln!(rt; "{error}");
            ExitCode::FAILURE
        }
    }
}

fn run<R: Host>(rt: R) -> io::Result<()> {
    let table = Table::new(rt, asked_scale(&rt)?);
    managed::measure(table)?;
    timed::measure(table)?;
    unmanaged::measure(table)?;
    gates::measure(table)
}

// How much the arguments ask for.
fn asked_scale<R: Host>(rt: &R) -> io::Result<Scale> {
    let mut arguments = env::args(rt)?;
    let _program = arguments.next();
    Ok(match arguments.next() {
        Some(argument) => named_scale(argument.as_str()),
        None => Scale::QUICK,
    })
}

fn named_scale(argument: &str) -> Scale {
    if argument == "measure" {
        return Scale::MEASURE;
    }
    match argument.parse::<u32>() {
        Ok(times) => Scale {
            times,
            writes: true,
            ..Scale::QUICK
        },
        Err(_) => Scale::QUICK,
    }
}
