//! How long it takes to leave the middle of a line.

use crate::host::Host;
use crate::line::Line;
use crate::plain::{BareLock, PlainGets};
use crate::table::{Row, Table};
use crate::tenths::Tenths;
use std::alloc::Global;
use std::io;
use std::rt::Clock;
use std::time::{Duration, Instant};

// How many waiters join in all the windows of a figure, about.
const JOINS: usize = 2_000_000;

// A line with those in its middle, who are to leave, and those before and behind them.
#[derive(Drop)]
struct Filled<L: Line> {
    line: L,
    middle: Vec<L::Waiter>,
    others: Vec<L::Waiter>,
}

impl<L: Line> Filled<L> {
    // So many wait, of whom so many are to leave.
    fn fill(alloc: Global, mut line: L, waiters: usize, leaving: usize) -> io::Result<Self> {
        let mut middle = Vec::with_capacity(alloc, leaving)?;
        let mut others = Vec::with_capacity(alloc, waiters)?;
        let before = waiters.saturating_sub(leaving) / 2;
        for arrival in 0..waiters {
            let waiter = line.join()?;
            if arrival >= before && middle.len() < leaving {
                middle.push(waiter)?;
            } else {
                others.push(waiter)?;
            }
        }
        Ok(Filled {
            line,
            middle,
            others,
        })
    }

    fn cancel_middle(&mut self) {
        for waiter in self.middle.drain(..) {
            self.line.leave(waiter);
        }
    }

    // The line with nobody in it.
    fn empty(self) -> io::Result<L> {
        let Filled {
            mut line,
            middle: _,
            others,
        } = self;
        if line.waiting() != others.len() {
            return Err(io::Error::other("a waiter has not left"));
        }
        for waiter in others {
            line.leave(waiter);
        }
        Ok(line)
    }
}

/// Times leaving the middle of a line of gets in which few, more and many wait, and writes a row for each.
pub fn cancel_gets<R: Host, L: Line>(table: Table<R>, line: L) -> io::Result<()> {
    let mut lines = Vec::with_capacity(table.rt.alloc(), 1)?;
    lines.push(line)?;
    for waiters in table.scale.waiters {
        lines = cancels(table, "cancel in the middle", lines, waiters)?;
    }
    Ok(())
}

/// Times leaving the middle of lines in which so many wait, and writes its row. The lines come back with nobody in
/// them.
///
/// A tenth of a line leaves in a window, but five of ten, so that its length stays about what it was. A window has one
/// reading of the clock in it, which is felt if few leave.
pub fn cancels<R: Host, L: Line>(
    table: Table<R>,
    name: &str,
    lines: Vec<L>,
    waiters: usize,
) -> io::Result<Vec<L>> {
    let alloc = table.rt.alloc();
    let plain = PlainGets::new(table.rt)?;
    let lock = BareLock::new(table.rt);
    let joins = waiters.saturating_mul(lines.len());
    let windows = JOINS.checked_div(joins).unwrap_or(0).max(1);
    let mut lines = lines;
    let mut least = Row::LONGEST;
    for _window in 0..windows.min(table.scale.windows) {
        let (figure, emptied) = each(table.rt, lines, waiters)?;
        lines = emptied;
        least = least.least(Row {
            figure,
            plain: table.each(&plain)?,
            lock: table.each(&lock)?,
        });
    }
    let name = format!(in alloc; "{name}: waiters {waiters}")?;
    table.write(name.as_str(), least)?;
    Ok(lines)
}

// The time of one that leaves, from one window. The lines come back.
fn each<R: Host, L: Line>(rt: R, lines: Vec<L>, waiters: usize) -> io::Result<(Tenths, Vec<L>)> {
    let leaving = (waiters / 10).max(5);
    let left = (leaving as u64).saturating_mul(lines.len() as u64);
    let mut filled = fill_all(rt.alloc(), lines, waiters, leaving)?;
    let window = cancel_middles(&rt, &mut filled)?;
    let emptied = empty_all(rt.alloc(), filled)?;
    Ok((Tenths::nanoseconds(window, left), emptied))
}

// In each line so many wait, of whom so many are to leave.
fn fill_all<L: Line>(
    alloc: Global,
    lines: Vec<L>,
    waiters: usize,
    leaving: usize,
) -> io::Result<Vec<Filled<L>>> {
    let mut filled = Vec::with_capacity(alloc, lines.len())?;
    for line in lines {
        filled.push(Filled::fill(alloc, line, waiters, leaving)?)?;
    }
    Ok(filled)
}

// The lines with nobody in them.
fn empty_all<L: Line>(alloc: Global, filled: Vec<Filled<L>>) -> io::Result<Vec<L>> {
    let mut emptied = Vec::with_capacity(alloc, filled.len())?;
    for line in filled {
        emptied.push(line.empty()?)?;
    }
    Ok(emptied)
}

fn cancel_middles<L: Line>(clock: &impl Clock, lines: &mut [Filled<L>]) -> io::Result<Duration> {
    let start = Instant::now(clock)?;
    for line in lines.iter_mut() {
        line.cancel_middle();
    }
    start.elapsed(clock)
}
