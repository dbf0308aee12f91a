//! The replies to the lines of a script.
use deadpool_journal::Tally;
use deadpool_managed::{Counts, RetainResult};
use deadpool_parts::Status;
use deadpool_trial::{Reply, unmanaged};
use deadpool_unmanaged_journal as plain;
use std::alloc::AllocError;
use std::fmt;

/// Appends the reply to a move over a managed pool. The value is that of the object that the move has handed out.
pub fn write_managed<E: fmt::Display>(
    text: &mut String,
    reply: &Reply<u64, E>,
    value: Option<u64>,
) -> Result<(), AllocError> {
    match reply {
        Reply::Started(party) => write!(text, "party {party}"),
        Reply::NoRoom => text.push_str("no room"),
        Reply::NoSuch => text.push_str("no such"),
        Reply::NoHandle => text.push_str("no handle"),
        Reply::More => text.push_str("more"),
        Reply::Pending => text.push_str("pending"),
        Reply::Object(number) => write_object(text, *number, value),
        Reply::Failed(cause) => write!(text, "error {cause}"),
        Reply::Cancelled => text.push_str("cancelled"),
        Reply::Done => text.push_str("ok"),
        Reply::Kept => text.push_str("kept"),
        Reply::Detached => text.push_str("detached"),
        Reply::Dropped => text.push_str("dropped"),
        Reply::Taken(value) => write!(text, "taken {value}"),
        Reply::OutOfMemory => text.push_str("out of memory"),
        Reply::Retained(retain) => write_retained(text, retain),
        Reply::Stands(status) => write_status(text, *status),
        Reply::Upgraded(true) => text.push_str("ok"),
        Reply::Upgraded(false) => text.push_str("none"),
    }
}

/// Appends the reply to a move over an unmanaged pool. The value is that of the object that the move has handed out.
pub fn write_unmanaged(
    text: &mut String,
    reply: &unmanaged::Reply<u64>,
    value: Option<u64>,
) -> Result<(), AllocError> {
    use unmanaged::Reply;
    match reply {
        Reply::Started(party) => write!(text, "party {party}"),
        Reply::NoRoom => text.push_str("no room"),
        Reply::NoSuch => text.push_str("no such"),
        Reply::NoHandle => text.push_str("no handle"),
        Reply::Exhausted(value) => write!(text, "exhausted value {value}"),
        Reply::Pending => text.push_str("pending"),
        Reply::Object(number) => write_object(text, *number, value),
        Reply::Added(number) => write!(text, "added {number}"),
        Reply::Failed(cause) => write!(text, "error {cause}"),
        Reply::Refused(cause, value) => write!(text, "error {cause} value {value}"),
        Reply::Cancelled => text.push_str("cancelled"),
        Reply::Kept => text.push_str("kept"),
        Reply::Dropped => text.push_str("dropped"),
        Reply::Taken(value) => write!(text, "taken {value}"),
        Reply::Done => text.push_str("ok"),
        Reply::Stands(status) => write_status(text, *status),
        Reply::Upgraded(true) => text.push_str("ok"),
        Reply::Upgraded(false) => text.push_str("none"),
    }
}

// An object that a move has handed out.
fn write_object(text: &mut String, number: usize, value: Option<u64>) -> Result<(), AllocError> {
    match value {
        Some(value) => write!(text, "object {number} value {value}"),
        None => text.push_str("no such"),
    }
}

fn write_retained(text: &mut String, retain: &RetainResult<u64>) -> Result<(), AllocError> {
    let retained = retain.retained;
    write!(text, "retained {retained} removed")?;
    for value in retain.removed.iter() {
        write!(text, " {value}")?;
    }
    Ok(())
}

/// Appends how a pool stands.
pub fn write_status(text: &mut String, status: Status) -> Result<(), AllocError> {
    let Status {
        max_size,
        size,
        available,
        waiting,
    } = status;
    write!(
        text,
        "max {max_size} size {size} available {available} waiting {waiting}"
    )
}

/// Appends what is left in a closed pool: how many objects there are, and how many gets hold a place or have a creation
/// under way. A get that was granted a place and has not asked is refused when it does.
pub fn write_left(text: &mut String, counts: Counts) -> Result<(), AllocError> {
    write_remainder(text, counts.places.saturating_sub(counts.granted))
}

/// Appends that so much is left in a closed pool.
pub fn write_remainder(text: &mut String, left: usize) -> Result<(), AllocError> {
    match left {
        0 => text.push_str("drained"),
        left => write!(text, "left {left}"),
    }
}

/// Appends how often each thing has happened, in the order of the fields. What never has is left out.
pub fn write_tally(text: &mut String, tally: Tally) -> Result<(), AllocError> {
    write_counts(
        text,
        &[
            ("gets", tally.gets),
            ("served", tally.served),
            ("waited", tally.waited),
            ("late", tally.late),
            ("crowded", tally.crowded),
            ("closed", tally.closed),
            ("created", tally.created),
            ("failed", tally.failed),
            ("refused", tally.refused),
            ("cancelled", tally.cancelled),
            ("surplus", tally.surplus),
            ("not_retained", tally.not_retained),
            ("taken", tally.taken),
            ("dropped", tally.dropped),
        ],
    )
}

/// The same of an unmanaged pool.
pub fn write_unmanaged_tally(text: &mut String, tally: plain::Tally) -> Result<(), AllocError> {
    write_counts(
        text,
        &[
            ("gets", tally.gets),
            ("served", tally.served),
            ("waited", tally.waited),
            ("late", tally.late),
            ("crowded", tally.crowded),
            ("closed", tally.closed),
            ("adds", tally.adds),
            ("stored", tally.stored),
            ("adds_waited", tally.adds_waited),
            ("adds_full", tally.adds_full),
            ("adds_crowded", tally.adds_crowded),
            ("adds_closed", tally.adds_closed),
            ("taken", tally.taken),
            ("dropped", tally.dropped),
        ],
    )
}

// Appends the counts that are not 0, each behind its name.
fn write_counts(text: &mut String, counts: &[(&str, u64)]) -> Result<(), AllocError> {
    let mut between = "";
    for (name, count) in counts {
        if *count > 0 {
            write!(text, "{between}{name} {count}")?;
            between = " ";
        }
    }
    text.push_str(if between.is_empty() { "nothing" } else { "" })
}

/// Ends the line of a reply, if its text has not ended it.
pub fn end_line(text: &mut String) -> Result<(), AllocError> {
    if !text.as_str().ends_with('\n') {
        text.push('\n')?;
    }
    Ok(())
}
