//! Lists of moves, which the program does not know: `list start; poll 0 0`.
use crate::script::{Excerpt, LineError, ManagedLine, Reason, parse_managed, parse_unmanaged};
use deadpool_trial::{Move, unmanaged};
use std::alloc::Global;

/// The moves of a line that is a list, each behind a space and parted from the next. None if the line is another.
pub fn list_of(line: &str) -> Option<&str> {
    line.strip_prefix("list")
}

/// The moves of a list over a managed pool.
pub fn managed_moves(alloc: Global, list: &str) -> Result<Vec<Move<u64>>, LineError> {
    let mut moves = Vec::new(alloc);
    for part in list.split_terminator(';') {
        let ManagedLine::Move(next) = parse_managed(alloc, move_of(part)?)? else {
            return Err(no_part(part));
        };
        moves.push(next)?;
    }
    Ok(moves)
}

/// The moves of a list over an unmanaged pool.
pub fn unmanaged_moves(alloc: Global, list: &str) -> Result<Vec<unmanaged::Move<u64>>, LineError> {
    let mut moves = Vec::new(alloc);
    for part in list.split_terminator(';') {
        moves.push(parse_unmanaged(move_of(part)?)?)?;
    }
    Ok(moves)
}

fn move_of(part: &str) -> Result<&[u8], LineError> {
    match part.strip_prefix(' ') {
        Some(line) => Ok(line.as_bytes()),
        None => Err(no_part(part)),
    }
}

// Says that a part of a list is no move.
fn no_part(part: &str) -> LineError {
    LineError::NotAMove(Reason::Unknown(Excerpt::of(part)))
}
