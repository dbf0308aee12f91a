//! The words of a line, and the numbers among them.
use super::{Excerpt, LineError, Reason, Wanted};
use deadpool_parts::{Moment, Runtime};
use std::str;
use std::str::{FromStr, Split};
use std::time::Duration;

/// The words of a line, which one space each parts. A further space makes an empty word, which nothing allows.
pub type Words<'a> = Split<'a, char>;

/// The words of a line, if it is text.
pub fn words_of(line: &[u8]) -> Result<Words<'_>, LineError> {
    Ok(text_of(line)?.split(' '))
}

/// The bytes as text.
pub fn text_of(bytes: &[u8]) -> Result<&str, LineError> {
    str::from_utf8(bytes).map_err(|_| LineError::NotAMove(Reason::NoText))
}

/// The next word.
pub fn next_word<'a>(words: &mut Words<'a>) -> Result<&'a str, LineError> {
    words.next().ok_or(LineError::NotAMove(Reason::Count))
}

/// The next word, a number.
pub fn next_number<N: FromStr>(words: &mut Words<'_>) -> Result<N, LineError>
where
    N::Err: Drop,
{
    parse_number(next_word(words)?)
}

/// The next word, a moment.
pub fn next_moment(words: &mut Words<'_>) -> Result<Moment, LineError> {
    Ok(Moment(next_number(words)?))
}

/// Sees that no word is left.
pub fn end(words: &mut Words<'_>) -> Result<(), LineError> {
    match words.next() {
        None => Ok(()),
        Some(_) => Err(LineError::NotAMove(Reason::Count)),
    }
}

/// Says that a word is none of these.
pub fn is_no(word: &str, wanted: Wanted) -> LineError {
    LineError::NotAMove(Reason::IsNo(Excerpt::of(word), wanted))
}

/// Says that a word begins no line.
pub fn unknown(word: &str) -> LineError {
    LineError::NotAMove(Reason::Unknown(Excerpt::of(word)))
}

/// A number of decimal digits alone, in the range of its type.
pub fn parse_number<N: FromStr>(word: &str) -> Result<N, LineError>
where
    N::Err: Drop,
{
    if !word.bytes().all(|byte| byte.is_ascii_digit()) {
        return Err(is_no(word, Wanted::Number));
    }
    word.parse::<N>().map_err(|_| too_great(word))
}

// Says that a number is out of range.
fn too_great(word: &str) -> LineError {
    LineError::NotAMove(Reason::TooGreat(Excerpt::of(word)))
}

/// A number of nanoseconds, or none.
pub fn parse_timeout(word: &str) -> Result<Option<Duration>, LineError> {
    if word == "-" {
        return Ok(None);
    }
    if !word.bytes().all(|byte| byte.is_ascii_digit()) {
        return Err(is_no(word, Wanted::Timeout));
    }
    Ok(Some(Duration::from_nanos(parse_number(word)?)))
}

/// What a pool has for its timeouts.
pub fn parse_runtime(word: &str) -> Result<Option<Runtime>, LineError> {
    match word {
        "none" => Ok(None),
        "clock" => Ok(Some(Runtime::Clock)),
        _ => Err(is_no(word, Wanted::Runtime)),
    }
}
