//! Scripts by lines, and what comes of a line that finds no memory.
use crate::scripts::sides_of;
use std::alloc::{AllocError, Global};

/// The party that a line advances, polls or cancels.
pub fn party_of(line: &str) -> Option<&str> {
    let mut words = line.split(' ');
    match words.next() {
        Some("advance") | Some("poll") | Some("cancel") => words.next(),
        _ => None,
    }
}

/// Whether a line cancels a party.
pub fn is_cancel(line: &str) -> bool {
    line.starts_with("cancel ")
}

/// What the lines of a script say, but for its comments and for those that ask how the pool stands.
pub fn lines_of(alloc: Global, script: &'static str) -> Result<Vec<&'static str>, AllocError> {
    let mut lines = Vec::new(alloc);
    for line in script.lines() {
        let (said, _) = sides_of(line);
        if !said.starts_with('#') && said != "status" {
            lines.push(said)?;
        }
    }
    Ok(lines)
}

// Whether a party starts by a line.
fn is_start(line: &str) -> bool {
    match line.split(' ').next() {
        Some("start") | Some("get") | Some("add") => true,
        _ => false,
    }
}

/// What is replied when memory is refused to a line of a script. An add hands its object back.
pub fn refusal_of(alloc: Global, lines: &[&'static str], line: &str) -> Result<String, AllocError> {
    let Some(party) = party_of(line) else {
        return String::from_str(alloc, "out of memory\n");
    };
    let number = party.parse::<usize>().unwrap_or(usize::MAX);
    let mut starts = lines.iter().filter(|start| is_start(start));
    match starts
        .nth(number)
        .and_then(|start| start.strip_prefix("add "))
    {
        Some(value) => format!(in alloc; "error Out of memory value {value}\n"),
        None => String::from_str(alloc, "error Out of memory\n"),
    }
}

/// What is to come of a line once a refusal has ended a party: nothing comes of the party, but it can be cancelled.
pub fn after_refusal<'a>(ended: Option<&str>, line: &str, reply: &'a str) -> &'a str {
    match (ended, party_of(line)) {
        (Some(ended), Some(party)) if ended == party => {
            if is_cancel(line) {
                "cancelled\n"
            } else {
                "pending\n"
            }
        }
        _ => reply,
    }
}
