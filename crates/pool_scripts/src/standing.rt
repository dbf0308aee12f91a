//! How a script's pool stands, as one line of bars.
use crate::opening::{ManagedTrial, ScriptPool, UnmanagedTrial};
use std::alloc::AllocError;

// How many signs stand for one count at most.
const MOST_SIGNS: usize = 40;

/// Whether bars are coloured, as a terminal understands it.
#[derive(Clone, Copy, Debug, PartialEq, Eq)]
pub enum Colour {
    None,
    Terminal,
}

/// What there is of a pool.
#[derive(Clone, Copy, Debug, PartialEq, Eq)]
pub struct Standing {
    pub limit: usize,
    /// Objects that are out, or that gets prepare.
    pub out: usize,
    pub idle: usize,
    /// Those in the queue that were granted what they wait for.
    pub granted: usize,
    pub waiting: usize,
}

// A count as a bar: its sign, how many, and its colour.
#[derive(Clone, Copy)]
struct Bar {
    sign: char,
    count: usize,
    colour: &'static str,
}

const BLUE: &str = "\x1b[34m";

const GREY: &str = "\x1b[90m";

const GREEN: &str = "\x1b[32m";

const YELLOW: &str = "\x1b[33m";

const PLAIN: &str = "\x1b[0m";

impl Standing {
    /// That of a pool.
    pub fn of(pool: &ScriptPool<'_>) -> Standing {
        match pool {
            ScriptPool::Managed(trial) => {
                let counts = trial.counts();
                let idle = idle_in(trial);
                Standing {
                    limit: counts.limit,
                    out: counts.size.saturating_sub(idle),
                    idle,
                    granted: counts.granted,
                    waiting: counts.waiting,
                }
            }
            ScriptPool::Unmanaged(trial) => {
                let counts = trial.counts();
                let idle = idle_in_unmanaged(trial);
                Standing {
                    limit: counts.limit,
                    out: counts.size.saturating_sub(idle),
                    idle,
                    granted: counts.gets_granted.saturating_add(counts.adds_granted),
                    waiting: counts.gets_waiting.saturating_add(counts.adds_waiting),
                }
            }
        }
    }

    /// Appends it as a line: between brackets what is out, what is idle and how much room is left, behind them those
    /// that wait, and all of them as numbers.
    pub fn write(self, text: &mut String, colour: Colour) -> Result<(), AllocError> {
        let Standing {
            limit,
            out,
            idle,
            granted,
            waiting,
        } = self;
        let free = limit.saturating_sub(out.saturating_add(idle));
        text.push_str("  [")?;
        write_bar(text, colour, Bar::of('#', out, BLUE))?;
        write_bar(text, colour, Bar::of('=', idle, GREY))?;
        write_bar(text, colour, Bar::of('.', free, ""))?;
        text.push_str("] ")?;
        write_bar(text, colour, Bar::of('>', granted, GREEN))?;
        write_bar(text, colour, Bar::of('-', waiting, YELLOW))?;
        if granted > 0 || waiting > 0 {
            text.push(' ')?;
        }
        writeln!(
            text,
            "out {out} idle {idle} limit {limit} granted {granted} waiting {waiting}"
        )
    }
}

fn idle_in(trial: &ManagedTrial<'_>) -> usize {
    let mut idle = 0usize;
    for at in 0..usize::MAX {
        if trial.idle_at(at).is_none() {
            break;
        }
        idle = at.saturating_add(1);
    }
    idle
}

fn idle_in_unmanaged(trial: &UnmanagedTrial) -> usize {
    let mut idle = 0usize;
    for at in 0..usize::MAX {
        if trial.idle_at(at).is_none() {
            break;
        }
        idle = at.saturating_add(1);
    }
    idle
}

impl Bar {
    fn of(sign: char, count: usize, colour: &'static str) -> Bar {
        Bar {
            sign,
            count,
            colour,
        }
    }
}

// A sign for each, up to as many as are shown.
fn write_bar(text: &mut String, colour: Colour, bar: Bar) -> Result<(), AllocError> {
    let is_coloured = colour == Colour::Terminal && bar.count > 0 && !bar.colour.is_empty();
    if is_coloured {
        text.push_str(bar.colour)?;
    }
    for _sign in 0..bar.count.min(MOST_SIGNS) {
        text.push(bar.sign)?;
    }
    if bar.count > MOST_SIGNS {
        text.push_str("..")?;
    }
    if is_coloured {
        text.push_str(PLAIN)?;
    }
    Ok(())
}
