//! A line that has another reply than is written behind it.
use std::fmt;

/// The first line of a text that has another reply than is written behind it.
#[derive(Drop)]
pub struct Mismatch<'a> {
    /// The first line of its script, which is the script's name.
    pub name: &'a str,
    /// Its number in the text, from 1.
    pub number: usize,
    /// The line, with the reply that is written behind it.
    pub line: &'a str,
    /// The reply that came.
    pub reply: String,
}

impl fmt::Display for Mismatch<'_> {
    fn fmt<W: fmt::Write>(&self, f: &mut fmt::Formatter<W>) -> fmt::Result {
        let Mismatch {
            name,
            number,
            line,
            reply,
        } = self;
        write!(f, "{name}: line {number}, {line}: the reply is {reply:?}")
    }
}
