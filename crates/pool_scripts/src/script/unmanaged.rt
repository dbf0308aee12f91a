//! The lines over an unmanaged pool.
use super::words::{
    Words, end, next_moment, next_number, next_word, parse_timeout, unknown, words_of,
};
use super::{Language, LineError};
use deadpool_trial::unmanaged::Move;
use std::time::Duration;

/// What a line of a script says over an unmanaged pool: a move, a closing that says what is left, or a question for
/// what was counted.
#[derive(Drop)]
pub enum UnmanagedLine {
    Move(Move<u64>),
    /// The pool closes.
    Drain,
    /// How often each thing has happened.
    Tally,
}

/// What a line of a script says over an unmanaged pool.
pub fn parse_unmanaged_line(line: &[u8]) -> Result<UnmanagedLine, LineError> {
    match read_own(line) {
        Ok(Some(own)) => Ok(own),
        Ok(None) => Ok(UnmanagedLine::Move(parse_unmanaged(line)?)),
        Err(cause) => Err(cause.in_line(Language::Unmanaged, line)),
    }
}

// What a line says that is not a move. None if it is one.
fn read_own(line: &[u8]) -> Result<Option<UnmanagedLine>, LineError> {
    let mut words = words_of(line)?;
    let own = match next_word(&mut words)? {
        "drain" => UnmanagedLine::Drain,
        "tally" => UnmanagedLine::Tally,
        _ => return Ok(None),
    };
    end(&mut words)?;
    Ok(Some(own))
}

/// The move that a line says over an unmanaged pool.
pub fn parse_unmanaged(line: &[u8]) -> Result<Move<u64>, LineError> {
    read_unmanaged(line).map_err(|cause| cause.in_line(Language::Unmanaged, line))
}

fn read_unmanaged(line: &[u8]) -> Result<Move<u64>, LineError> {
    let mut words = words_of(line)?;
    let next = parse_move(&mut words)?;
    end(&mut words)?;
    Ok(next)
}

fn parse_move(words: &mut Words<'_>) -> Result<Move<u64>, LineError> {
    let word = next_word(words)?;
    Ok(match word {
        "get" => Move::Get(parse_wait(words)?),
        "add" => Move::Add(next_number(words)?),
        "poll" => Move::Poll(next_number(words)?, next_moment(words)?),
        "tryget" => Move::TryGet,
        "tryadd" => Move::TryAdd(next_number(words)?),
        "cancel" => Move::Cancel(next_number(words)?),
        "back" => Move::Back(next_number(words)?),
        "take" => Move::Take(next_number(words)?),
        "close" => Move::Close,
        "status" => Move::Status,
        "clone" => Move::Clone,
        "drop" => Move::DropHandle,
        "upgrade" => Move::Upgrade,
        _ => return Err(unknown(word)),
    })
}

// How long a get may wait. With no word it waits without an end, as the pool has no timeout of its own.
fn parse_wait(words: &mut Words<'_>) -> Result<Option<Duration>, LineError> {
    match words.next() {
        None => Ok(None),
        Some(wait) => parse_timeout(wait),
    }
}
