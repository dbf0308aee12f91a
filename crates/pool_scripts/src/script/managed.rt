//! The lines over a managed pool.
use super::words::{
    Words, end, is_no, next_moment, next_number, next_word, parse_number, parse_timeout, unknown,
    words_of,
};
use super::{Language, LineError, Wanted};
use crate::manager::{Answer, Kind};
use deadpool_managed::Timeouts;
use deadpool_parts::Moment;
use deadpool_trial::Move;
use std::alloc::Global;

/// What a line over a managed pool says.
#[derive(Drop)]
pub enum ManagedLine {
    /// The next polls of this kind are to be answered so.
    Answer(Kind, Vec<Answer>),
    /// A move over the pool.
    Move(Move<u64>),
}

/// What a line of a script says over a managed pool: a line of one move, a get that is polled at once, a closing that
/// says what is left, or a question for what was counted.
#[derive(Drop)]
pub enum ScriptLine {
    Plain(ManagedLine),
    /// It starts with the configured timeouts, and is polled at this moment.
    Get(Moment),
    /// The pool closes.
    Drain,
    /// How often each thing has happened.
    Tally,
}

/// What a line of a script says over a managed pool.
pub fn parse_script_line(alloc: Global, line: &[u8]) -> Result<ScriptLine, LineError> {
    match read_own(line) {
        Ok(Some(own)) => Ok(own),
        Ok(None) => Ok(ScriptLine::Plain(parse_managed(alloc, line)?)),
        Err(cause) => Err(cause.in_line(Language::Managed, line)),
    }
}

// What a line says that is not one move. None if it is one.
fn read_own(line: &[u8]) -> Result<Option<ScriptLine>, LineError> {
    let mut words = words_of(line)?;
    let own = match next_word(&mut words)? {
        "get" => ScriptLine::Get(next_moment(&mut words)?),
        "drain" => ScriptLine::Drain,
        "tally" => ScriptLine::Tally,
        _ => return Ok(None),
    };
    end(&mut words)?;
    Ok(Some(own))
}

/// What a line of one move says over a managed pool.
pub fn parse_managed(alloc: Global, line: &[u8]) -> Result<ManagedLine, LineError> {
    read_managed(alloc, line).map_err(|cause| cause.in_line(Language::Managed, line))
}

fn read_managed(alloc: Global, line: &[u8]) -> Result<ManagedLine, LineError> {
    let mut words = words_of(line)?;
    let said = match next_word(&mut words)? {
        "answer" => {
            let kind = parse_kind(next_word(&mut words)?)?;
            ManagedLine::Answer(kind, parse_answers(alloc, kind, &mut words)?)
        }
        word => ManagedLine::Move(parse_move(alloc, word, &mut words)?),
    };
    end(&mut words)?;
    Ok(said)
}

fn parse_move(alloc: Global, word: &str, words: &mut Words<'_>) -> Result<Move<u64>, LineError> {
    Ok(match word {
        "start" => Move::Start(parse_timeouts(words)?),
        "advance" => Move::Advance(next_number(words)?, next_moment(words)?),
        "poll" => Move::Poll(next_number(words)?, next_moment(words)?),
        "cancel" => Move::Cancel(next_number(words)?),
        "put" => Move::Put(next_number(words)?, next_number(words)?),
        "back" => Move::Back(next_number(words)?),
        "take" => Move::Take(next_number(words)?),
        "resize" => Move::Resize(next_number(words)?),
        "retain" => Move::Retain(parse_numbers(alloc, words)?),
        "close" => Move::Close,
        "status" => Move::Status,
        "clone" => Move::Clone,
        "drop" => Move::DropHandle,
        "upgrade" => Move::Upgrade,
        _ => return Err(unknown(word)),
    })
}

fn parse_kind(word: &str) -> Result<Kind, LineError> {
    match word {
        "create" => Ok(Kind::Create),
        "recycle" => Ok(Kind::Recycle),
        "pre" => Ok(Kind::PreRecycle),
        "post" => Ok(Kind::PostRecycle),
        "postcreate" => Ok(Kind::PostCreate),
        _ => Err(is_no(word, Wanted::Kind)),
    }
}

// The words to the end of the line, of which there is at least one.
fn parse_answers(
    alloc: Global,
    kind: Kind,
    words: &mut Words<'_>,
) -> Result<Vec<Answer>, LineError> {
    let mut answers = vec![in alloc; parse_answer(kind, next_word(words)?)?]?;
    for word in words {
        answers.push(parse_answer(kind, word)?)?;
    }
    Ok(answers)
}

fn parse_answer(kind: Kind, word: &str) -> Result<Answer, LineError> {
    match word {
        "ok" => Ok(Answer::Accept),
        "pending" => Ok(Answer::Pending),
        "refuse" => Ok(Answer::Refuse),
        // A creation has no value yet.
        "add" if kind != Kind::Create => Ok(Answer::Add),
        _ if kind == Kind::Create => Err(is_no(word, Wanted::CreateAnswer)),
        _ => Err(is_no(word, Wanted::Answer)),
    }
}

// The numbers to the end of the line, of which there may be none.
fn parse_numbers(alloc: Global, words: &mut Words<'_>) -> Result<Vec<usize>, LineError> {
    let mut numbers = Vec::new(alloc);
    for word in words {
        numbers.push(parse_number(word)?)?;
    }
    Ok(numbers)
}

// Three timeouts, or no word: then they are those that the pool is configured with.
fn parse_timeouts(words: &mut Words<'_>) -> Result<Option<Timeouts>, LineError> {
    let Some(wait) = words.next() else {
        return Ok(None);
    };
    Ok(Some(Timeouts {
        wait: parse_timeout(wait)?,
        create: parse_timeout(next_word(words)?)?,
        recycle: parse_timeout(next_word(words)?)?,
    }))
}
