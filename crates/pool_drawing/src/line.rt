//! The lines that are written below a picture, and what comments say.
use std::alloc::{AllocError, Global};
use std::str;

// How many bytes of a line or a reply are shown at most.
const MOST_SHOWN: usize = 60;

/// A line of the input, and what was replied or is said of it.
#[derive(Drop)]
pub struct Line {
    /// Its number in the input, from 1.
    pub number: u64,
    pub text: String,
    pub reply: String,
}

impl Line {
    /// A line with its reply, each as far as it is shown. Bytes that are no text are shown as `?`.
    pub fn new(alloc: Global, number: u64, line: &[u8], reply: &str) -> Result<Line, AllocError> {
        Ok(Line {
            number,
            text: shortened(alloc, line)?,
            reply: shortened(alloc, reply.trim_ascii().as_bytes())?,
        })
    }
}

// What is shown of some bytes: those that can be printed, and dots for what is left out.
fn shortened(alloc: Global, bytes: &[u8]) -> Result<String, AllocError> {
    let mut text = String::new(alloc);
    for byte in bytes.iter().take(MOST_SHOWN) {
        let printed = byte.is_ascii_graphic() || *byte == b' ';
        text.push(if printed { char::from(*byte) } else { '?' })?;
    }
    if bytes.len() > MOST_SHOWN {
        text.push_str(" ..")?;
    }
    Ok(text)
}

// How many letters of a comment are shown at most.
const MOST_OF_A_COMMENT: usize = 200;

/// What a comment says, behind its sign: letters of any script. What is no text, or can't be printed, is shown as `?`.
pub fn comment_of(alloc: Global, line: &[u8]) -> Result<String, AllocError> {
    let Ok(text) = str::from_utf8(behind_sign(line)) else {
        return shortened(alloc, behind_sign(line));
    };
    let mut shown = String::new(alloc);
    for letter in text.trim_ascii().chars().take(MOST_OF_A_COMMENT) {
        shown.push(if is_printed(letter) { letter } else { '?' })?;
    }
    Ok(shown)
}

// What stands behind the sign of a comment and blanks.
fn behind_sign(line: &[u8]) -> &[u8] {
    match line.iter().position(|byte| *byte != b'#' && *byte != b' ') {
        Some(start) => &line[start..],
        None => &[],
    }
}

// Whether a picture may have this letter.
fn is_printed(letter: char) -> bool {
    !letter.is_control() && letter != '\u{fffe}' && letter != '\u{ffff}'
}
