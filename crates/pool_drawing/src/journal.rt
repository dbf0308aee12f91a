//! Reads a journal, makes its steps again, and draws what there is after each of them.
mod step;
mod unmanaged;

use crate::story::write_story;
use crate::{Column, Kind, Owner, Picture, Stock, Stop, is_out_of_memory};
use deadpool_managed::{Core, QueueMode};
use deadpool_unmanaged as plain;
use pool_scripts::{Fault, LineError, Reason, Stopped, parse_number, read_line, without_line_feed};
use std::alloc::Global;
use std::io::{BufRead, Write};
use step::{Words, end, make_again, next_number, next_word, words_of};
use unmanaged::{Name, make_unmanaged_again};

/// Reads a journal as the `Journal` of either pool prints it, and writes a picture of its counts: each step is made
/// again on a pool of no values, and has to have the reply that its line says. A journal that ends before its end is
/// drawn up to there.
pub fn draw_journal<B: BufRead, W: Write>(
    alloc: Global,
    reader: &mut B,
    writer: &mut W,
) -> Result<(), Stopped> {
    let mut reading = Reading::new(alloc);
    let ending = reading.read_all(reader);
    if is_out_of_memory(&ending) {
        return ending;
    }
    write_story(alloc, &reading.picture, writer)?;
    ending
}

// The pool of which a journal is.
#[derive(Drop)]
enum Pool {
    Managed(Core<()>),
    Unmanaged(plain::Core<Name>),
}

// A journal that is drawn while it is read.
#[derive(Drop)]
struct Reading {
    alloc: Global,
    // None before the line that opens it.
    pool: Option<Pool>,
    // Whether it has said that it is full. Nothing follows that.
    is_full: bool,
    picture: Picture,
    column: Column,
}

impl Reading {
    fn new(alloc: Global) -> Self {
        Reading {
            alloc,
            pool: None,
            is_full: false,
            picture: Picture::new(alloc, Kind::Journal),
            column: Column::new(alloc),
        }
    }

    fn read_all<B: BufRead>(&mut self, reader: &mut B) -> Result<(), Stopped> {
        let mut bytes = Vec::new(self.alloc);
        for number in 1..=u64::MAX {
            if !read_line(reader, &mut bytes)? {
                return Ok(());
            }
            let line = without_line_feed(&bytes);
            if let Err(stop) = self.read_entry(number, line) {
                self.picture
                    .set_aside(self.alloc, number, line, stop.why())?;
                return Err(stop.at(number));
            }
        }
        Err(Stopped::from(Fault::InputFailed))
    }

    // Reads a line, and adds its column.
    fn read_entry(&mut self, number: u64, line: &[u8]) -> Result<(), Stop> {
        if !self.picture.has_room() {
            return Err(Stop::TooMuch);
        }
        self.follow(line)?;
        self.add_column(number, line)
    }

    fn follow(&mut self, line: &[u8]) -> Result<(), Stop> {
        let mut words = words_of(line)?;
        let Some(pool) = &mut self.pool else {
            return self.open(&mut words);
        };
        if self.is_full {
            return Err(Stop::NotAMove(Reason::NoStep));
        }
        if line == b"full".as_slice() {
            self.is_full = true;
            return Ok(());
        }
        let made = text_again(self.alloc, pool, &mut words)?;
        if made.as_bytes() == line {
            Ok(())
        } else {
            Err(Stop::OtherReply)
        }
    }

    fn open(&mut self, words: &mut Words<'_>) -> Result<(), Stop> {
        let pool = parse_opening(self.alloc, words)?;
        self.picture.kind = match pool {
            Pool::Managed(_) => Kind::Journal,
            Pool::Unmanaged(_) => Kind::UnmanagedJournal,
        };
        self.pool = Some(pool);
        Ok(())
    }

    fn add_column(&mut self, number: u64, line: &[u8]) -> Result<(), Stop> {
        let Reading {
            alloc,
            pool,
            picture,
            column,
            ..
        } = self;
        if let Some(pool) = pool {
            show(pool, column);
            column.event.line = number;
            column.event.owner = owner_of(line);
            picture.add_column(*alloc, column)?;
        }
        Ok(())
    }
}

// Makes the step that a line names, and gives its entry as text.
fn text_again(alloc: Global, pool: &mut Pool, words: &mut Words<'_>) -> Result<String, LineError> {
    match pool {
        Pool::Managed(core) => {
            let entry = make_again(alloc, core, words)?;
            Ok(format!(in alloc; "{entry}")?)
        }
        Pool::Unmanaged(core) => match make_unmanaged_again(core, words) {
            Ok(entry) => Ok(format!(in alloc; "{entry}")?),
            Err(fault) => Err(fault),
        },
    }
}

// What stands in the column of a pool as it is now.
fn show(pool: &Pool, column: &mut Column) {
    match pool {
        Pool::Managed(core) => {
            let counts = core.counts();
            column.limit = counts.limit;
            column.stock = stock_of(counts.size, counts.granted, counts.waiting);
        }
        Pool::Unmanaged(core) => {
            let counts = core.counts();
            column.limit = counts.limit;
            let granted = counts.gets_granted.saturating_add(counts.adds_granted);
            let waiting = counts.gets_waiting.saturating_add(counts.adds_waiting);
            column.stock = stock_of(counts.size, granted, waiting);
        }
    }
}

// A journal does not say which objects are idle.
fn stock_of(size: usize, granted: usize, waiting: usize) -> Stock {
    Stock {
        out: size,
        idle: 0,
        granted,
        waiting,
    }
}

// Whether a line is of a close. What a resize does is seen by the limit.
fn owner_of(line: &[u8]) -> Owner {
    if line.starts_with(b"close ") {
        Owner::Close
    } else {
        Owner::Nothing
    }
}

fn parse_opening(alloc: Global, words: &mut Words<'_>) -> Result<Pool, LineError> {
    if next_word(words)? != "opened" {
        return Err(LineError::NotAMove(Reason::NoStep));
    }
    match next_word(words)? {
        "unmanaged" => Ok(Pool::Unmanaged(parse_unmanaged_pool(alloc, words)?)),
        limit => Ok(Pool::Managed(parse_managed_pool(alloc, limit, words)?)),
    }
}

fn parse_managed_pool(
    alloc: Global,
    limit: &str,
    words: &mut Words<'_>,
) -> Result<Core<()>, LineError> {
    let limit = parse_number(limit)?;
    let mode = match next_word(words)? {
        "fifo" => QueueMode::Fifo,
        "lifo" => QueueMode::Lifo,
        _ => return Err(LineError::NotAMove(Reason::NoStep)),
    };
    let min_idle = next_number(words)?;
    let max_waiting = parse_bound(words)?;
    Ok(Core::new(alloc, limit, mode, 0, min_idle)?.bounded(max_waiting))
}

fn parse_unmanaged_pool(
    alloc: Global,
    words: &mut Words<'_>,
) -> Result<plain::Core<Name>, LineError> {
    let limit = next_number(words)?;
    let max_waiting = parse_bound(words)?;
    Ok(plain::Core::new(alloc, limit)?.bounded(max_waiting))
}

// The last word, if there is one: how many may wait.
fn parse_bound(words: &mut Words<'_>) -> Result<Option<usize>, LineError> {
    let Some(word) = words.next() else {
        return Ok(None);
    };
    end(words)?;
    Ok(Some(parse_number(word)?))
}
