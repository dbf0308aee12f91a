//! The input by lines, and what is written for each.
use crate::fault::Fault;
use std::io::{BufRead, Write};

/// Reads the next line in place of the last one, and its line feed with it. False says that there is none.
pub fn read_line<B: BufRead>(reader: &mut B, line: &mut Vec<u8>) -> Result<bool, Fault> {
    line.clear();
    let count = reader.read_until(b'\n', line).map_err(Fault::from_read)?;
    Ok(count > 0)
}

/// The line without its line feed, which the last line of an input may lack.
pub fn without_line_feed(line: &[u8]) -> &[u8] {
    match line {
        [text @ .., b'\n'] => text,
        text => text,
    }
}

/// Writes a reply to its end. An empty one is none.
pub fn write_out<W: Write>(writer: &mut W, reply: &str) -> Result<(), Fault> {
    if reply.is_empty() {
        return Ok(());
    }
    writer
        .write_all(reply.as_bytes())
        .map_err(|_| Fault::OutputFailed)?;
    writer.flush().map_err(|_| Fault::OutputFailed)
}
