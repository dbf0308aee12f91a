//! Makes the moves of a script, and keeps what parties are given.
use crate::{Event, Stop};
use deadpool_managed::Moment;
use deadpool_trial::{Move, Reply, unmanaged};
use futures::task::Context;
use pool_scripts::{
    Answers, ManagedLine, ManagedTrial, Refused, ScriptLine, UnmanagedLine, UnmanagedTrial,
    end_line, parse_script_line, parse_unmanaged_line, write_left, write_managed, write_remainder,
    write_tally, write_unmanaged, write_unmanaged_tally,
};
use pool_shapes::Given;
use std::alloc::{AllocError, Global};

// Whom a move names.
#[derive(Clone, Copy)]
enum Named {
    Party(usize),
    Object(usize),
    Nobody,
}

/// Makes the move of a line, or keeps its answers for the manager, and writes the reply. Gives what its column is of.
pub fn play_managed(
    trial: &mut ManagedTrial<'_>,
    given: &mut Given,
    is_closed: bool,
    told: (Global, &Answers),
    line: &[u8],
    cx: &mut Context<'_>,
    reply: &mut String,
) -> Result<Event, Stop> {
    let (alloc, answers) = told;
    let event = match parse_script_line(alloc, line)? {
        ScriptLine::Get(now) => get(trial, given, now, cx, reply)?,
        ScriptLine::Drain => drain(trial, is_closed, cx, reply)?,
        ScriptLine::Tally => ask_tally(trial, cx, reply)?,
        ScriptLine::Plain(ManagedLine::Move(next)) => {
            make(trial, given, is_closed, next, cx, reply)?
        }
        ScriptLine::Plain(ManagedLine::Answer(kind, words)) => {
            answers.append(kind, words)?;
            reply.push_str("ok")?;
            Event::new()
        }
    };
    end_line(reply)?;
    Ok(event)
}

// Starts a get, and polls it.
fn get(
    trial: &mut ManagedTrial<'_>,
    given: &mut Given,
    now: Moment,
    cx: &mut Context<'_>,
    reply: &mut String,
) -> Result<Event, Stop> {
    // (no object comes back by these)
    let started = make(trial, given, false, Move::Start(None), cx, reply)?;
    match started.party {
        None => Ok(started),
        Some(party) => {
            reply.push_str("; ")?;
            make(trial, given, false, Move::Poll(party, now), cx, reply)
        }
    }
}

// Closes the pool, and says what is left in it.
fn drain(
    trial: &mut ManagedTrial<'_>,
    is_closed: bool,
    cx: &mut Context<'_>,
    reply: &mut String,
) -> Result<Event, Stop> {
    let mut event = Event::of_move(&Move::Close, is_closed);
    let answer = trial.make(Move::Close, cx);
    event.note(&answer);
    match answer {
        Reply::Done => write_left(reply, trial.counts())?,
        other => write_managed(reply, &other, None)?,
    }
    Ok(event)
}

// Says how often each thing has happened. Nothing changes.
fn ask_tally(
    trial: &mut ManagedTrial<'_>,
    cx: &mut Context<'_>,
    reply: &mut String,
) -> Result<Event, Stop> {
    match trial.make(Move::Status, cx) {
        Reply::Stands(_) => write_tally(reply, trial.tally())?,
        other => write_managed(reply, &other, None)?,
    }
    Ok(Event::new())
}

// Makes a move, and appends the reply.
fn make(
    trial: &mut ManagedTrial<'_>,
    given: &mut Given,
    is_closed: bool,
    next: Move<u64>,
    cx: &mut Context<'_>,
    reply: &mut String,
) -> Result<Event, Stop> {
    let named = named_by(&next);
    let mut event = Event::of_move(&next, is_closed);
    let answer = trial.make(next, cx);
    event.note(&answer);
    note(given, named, &answer)?;
    write_managed(reply, &answer, value_of(trial, &answer))?;
    Ok(event)
}

fn named_by(next: &Move<u64>) -> Named {
    match next {
        Move::Advance(party, _) | Move::Poll(party, _) => Named::Party(*party),
        Move::Back(number) | Move::Take(number) => Named::Object(*number),
        _ => Named::Nobody,
    }
}

fn note(given: &mut Given, named: Named, answer: &Reply<u64, Refused>) -> Result<(), AllocError> {
    match answer {
        Reply::Started(_) => given.add_party(),
        Reply::Object(number) => {
            give(given, named, *number);
            Ok(())
        }
        Reply::Kept | Reply::Detached | Reply::Dropped | Reply::Taken(_) => {
            take_away(given, named);
            Ok(())
        }
        _ => Ok(()),
    }
}

// The party that the move names was given this object.
fn give(given: &mut Given, named: Named, number: usize) {
    if let Named::Party(party) = named {
        given.give(party, number);
    }
}

// The object that the move names is out no more.
fn take_away(given: &mut Given, named: Named) {
    if let Named::Object(number) = named {
        given.take_away(number);
    }
}

fn value_of(trial: &ManagedTrial<'_>, answer: &Reply<u64, Refused>) -> Option<u64> {
    match answer {
        Reply::Object(number) => trial.value(*number).copied(),
        _ => None,
    }
}

/// Makes the move of a line, and writes the reply.
pub fn play_unmanaged(
    trial: &mut UnmanagedTrial,
    given: &mut Given,
    is_closed: bool,
    line: &[u8],
    reply: &mut String,
) -> Result<Event, Stop> {
    let event = match parse_unmanaged_line(line)? {
        UnmanagedLine::Drain => drain_unmanaged(trial, is_closed, reply)?,
        UnmanagedLine::Tally => ask_unmanaged_tally(trial, reply)?,
        UnmanagedLine::Move(next) => make_unmanaged(trial, given, is_closed, next, reply)?,
    };
    end_line(reply)?;
    Ok(event)
}

// Closes the pool, and says what is left in it.
fn drain_unmanaged(
    trial: &mut UnmanagedTrial,
    is_closed: bool,
    reply: &mut String,
) -> Result<Event, Stop> {
    let mut event = Event::of_unmanaged(&unmanaged::Move::Close, is_closed);
    let answer = trial.make(unmanaged::Move::Close);
    event.note_unmanaged(&answer);
    match answer {
        unmanaged::Reply::Done => write_remainder(reply, trial.counts().size)?,
        other => write_unmanaged(reply, &other, None)?,
    }
    Ok(event)
}

// Says how often each thing has happened. Nothing changes.
fn ask_unmanaged_tally(trial: &mut UnmanagedTrial, reply: &mut String) -> Result<Event, Stop> {
    match trial.make(unmanaged::Move::Status) {
        unmanaged::Reply::Stands(_) => write_unmanaged_tally(reply, trial.tally())?,
        other => write_unmanaged(reply, &other, None)?,
    }
    Ok(Event::new())
}

// Makes a move, and appends the reply.
fn make_unmanaged(
    trial: &mut UnmanagedTrial,
    given: &mut Given,
    is_closed: bool,
    next: unmanaged::Move<u64>,
    reply: &mut String,
) -> Result<Event, Stop> {
    let named = named_by_unmanaged(&next);
    let mut event = Event::of_unmanaged(&next, is_closed);
    let answer = trial.make(next);
    event.note_unmanaged(&answer);
    note_unmanaged(given, named, &answer)?;
    write_unmanaged(reply, &answer, unmanaged_value_of(trial, &answer))?;
    Ok(event)
}

fn named_by_unmanaged(next: &unmanaged::Move<u64>) -> Named {
    match next {
        unmanaged::Move::Poll(party, _) => Named::Party(*party),
        unmanaged::Move::Back(number) | unmanaged::Move::Take(number) => Named::Object(*number),
        _ => Named::Nobody,
    }
}

fn note_unmanaged(
    given: &mut Given,
    named: Named,
    answer: &unmanaged::Reply<u64>,
) -> Result<(), AllocError> {
    match answer {
        unmanaged::Reply::Started(_) => given.add_party(),
        unmanaged::Reply::Object(number) => {
            give(given, named, *number);
            Ok(())
        }
        unmanaged::Reply::Kept | unmanaged::Reply::Dropped | unmanaged::Reply::Taken(_) => {
            take_away(given, named);
            Ok(())
        }
        _ => Ok(()),
    }
}

fn unmanaged_value_of(trial: &UnmanagedTrial, answer: &unmanaged::Reply<u64>) -> Option<u64> {
    match answer {
        unmanaged::Reply::Object(number) => trial.value(*number).copied(),
        _ => None,
    }
}
