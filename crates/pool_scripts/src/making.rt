//! Makes moves over a pool, one or a list of them, and writes the line that replies.
use crate::opening::UnmanagedTrial;
use crate::script::LineError;
use crate::texts::{
    end_line, write_left, write_managed, write_remainder, write_tally, write_unmanaged,
    write_unmanaged_tally,
};
use deadpool_managed::{AsyncHook, Manager, SyncHook};
use deadpool_parts::Moment;
use deadpool_trial::{Move, Reply, Trial, unmanaged};
use futures::task::Context;
use std::alloc::AllocError;
use std::fmt;

/// Makes a move over a managed pool.
pub fn make_managed<M: Manager<Type = u64>, F: SyncHook<M>, A: AsyncHook<M>, C: Drop>(
    trial: &mut Trial<M, F, A, C>,
    next: Move<u64>,
    cx: &mut Context<'_>,
    text: &mut String,
) -> Result<(), LineError>
where
    M::Error: fmt::Display,
{
    let reply = trial.make(next, cx);
    let written = write_managed(text, &reply, value_of(&reply, trial));
    end(written, text)
}

/// Starts a get over a managed pool and polls it at this moment. Its reply has both, parted as in a list.
pub fn make_get<M: Manager<Type = u64>, F: SyncHook<M>, A: AsyncHook<M>, C: Drop>(
    trial: &mut Trial<M, F, A, C>,
    now: Moment,
    cx: &mut Context<'_>,
    text: &mut String,
) -> Result<(), LineError>
where
    M::Error: fmt::Display,
{
    let started = trial.make(Move::Start(None), cx);
    write_managed(text, &started, None)?;
    match started {
        Reply::Started(party) => {
            part(text)?;
            make_managed(trial, Move::Poll(party, now), cx, text)
        }
        _ => end(Ok(()), text),
    }
}

/// Closes a managed pool, and says what is left in it.
pub fn make_drain<M: Manager<Type = u64>, F: SyncHook<M>, A: AsyncHook<M>, C: Drop>(
    trial: &mut Trial<M, F, A, C>,
    cx: &mut Context<'_>,
    text: &mut String,
) -> Result<(), LineError>
where
    M::Error: fmt::Display,
{
    let closed = trial.make(Move::Close, cx);
    let written = match closed {
        Reply::Done => write_left(text, trial.counts()),
        other => write_managed(text, &other, None),
    };
    end(written, text)
}

/// Says how often each thing has happened in a managed pool. It is asked for by a handle, as the status is.
pub fn make_tally<M: Manager<Type = u64>, F: SyncHook<M>, A: AsyncHook<M>, C: Drop>(
    trial: &mut Trial<M, F, A, C>,
    cx: &mut Context<'_>,
    text: &mut String,
) -> Result<(), LineError>
where
    M::Error: fmt::Display,
{
    let stands = trial.make(Move::Status, cx);
    let written = match stands {
        Reply::Stands(_) => write_tally(text, trial.tally()),
        other => write_managed(text, &other, None),
    };
    end(written, text)
}

/// Makes a list of moves over a managed pool in one call. Of an object that a move has handed out it writes no value,
/// since a later move may have put another or taken it.
pub fn run_managed<M: Manager<Type = u64>, F: SyncHook<M>, A: AsyncHook<M>, C: Drop>(
    trial: &mut Trial<M, F, A, C>,
    moves: Vec<Move<u64>>,
    cx: &mut Context<'_>,
    text: &mut String,
) -> Result<(), LineError>
where
    M::Error: fmt::Display,
{
    let Ok(replies) = trial.run(moves, cx) else {
        return Err(LineError::OutOfMemory);
    };
    let written = write_replies(text, &replies);
    end_list(written, text)
}

fn write_replies<E: fmt::Display>(
    text: &mut String,
    replies: &[Reply<u64, E>],
) -> Result<(), AllocError> {
    for reply in replies {
        part(text)?;
        match reply {
            Reply::Object(number) => write!(text, "object {number}"),
            other => write_managed(text, other, None),
        }?;
    }
    Ok(())
}

// The value of the object that a move has handed out.
fn value_of<M: Manager<Type = u64>, F: SyncHook<M>, A: AsyncHook<M>, C: Drop>(
    reply: &Reply<u64, M::Error>,
    trial: &Trial<M, F, A, C>,
) -> Option<u64> {
    match reply {
        Reply::Object(number) => trial.value(*number).copied(),
        _ => None,
    }
}

/// Makes a move over an unmanaged pool.
pub fn make_unmanaged(
    trial: &mut UnmanagedTrial,
    next: unmanaged::Move<u64>,
    text: &mut String,
) -> Result<(), LineError> {
    let reply = trial.make(next);
    let written = write_unmanaged(text, &reply, unmanaged_value_of(&reply, trial));
    end(written, text)
}

/// Closes an unmanaged pool, and says what is left in it.
pub fn make_unmanaged_drain(
    trial: &mut UnmanagedTrial,
    text: &mut String,
) -> Result<(), LineError> {
    let closed = trial.make(unmanaged::Move::Close);
    let written = match closed {
        unmanaged::Reply::Done => write_remainder(text, trial.counts().size),
        other => write_unmanaged(text, &other, None),
    };
    end(written, text)
}

/// Says how often each thing has happened in an unmanaged pool. It is asked for by a handle, as the status is.
pub fn make_unmanaged_tally(
    trial: &mut UnmanagedTrial,
    text: &mut String,
) -> Result<(), LineError> {
    let stands = trial.make(unmanaged::Move::Status);
    let written = match stands {
        unmanaged::Reply::Stands(_) => write_unmanaged_tally(text, trial.tally()),
        other => write_unmanaged(text, &other, None),
    };
    end(written, text)
}

/// Makes a list of moves over an unmanaged pool in one call, and writes no value of an object either.
pub fn run_unmanaged(
    trial: &mut UnmanagedTrial,
    moves: Vec<unmanaged::Move<u64>>,
    text: &mut String,
) -> Result<(), LineError> {
    let Ok(replies) = trial.run(moves) else {
        return Err(LineError::OutOfMemory);
    };
    let written = write_unmanaged_replies(text, &replies);
    end_list(written, text)
}

fn write_unmanaged_replies(
    text: &mut String,
    replies: &[unmanaged::Reply<u64>],
) -> Result<(), AllocError> {
    for reply in replies {
        part(text)?;
        match reply {
            unmanaged::Reply::Object(number) => write!(text, "object {number}"),
            other => write_unmanaged(text, other, None),
        }?;
    }
    Ok(())
}

fn unmanaged_value_of(reply: &unmanaged::Reply<u64>, trial: &UnmanagedTrial) -> Option<u64> {
    match reply {
        unmanaged::Reply::Object(number) => trial.value(*number).copied(),
        _ => None,
    }
}

// Writes what stands between two replies of a list.
fn part(text: &mut String) -> Result<(), AllocError> {
    if text.is_empty() {
        return Ok(());
    }
    text.push_str("; ")
}

// Ends the line of a reply that was written.
fn end(written: Result<(), AllocError>, text: &mut String) -> Result<(), LineError> {
    written?;
    end_line(text)?;
    Ok(())
}

// The same for a list, which has no reply if it is empty.
fn end_list(written: Result<(), AllocError>, text: &mut String) -> Result<(), LineError> {
    if text.is_empty() {
        text.push_str("nothing")?;
    }
    end(written, text)
}
