//! What was expected, and what was found in its place.
use deadpool_managed::{OwnerDesk, OwnerReply, OwnerStep};
use deadpool_parts::Status;
use std::fmt::Debug;
use std::test::Fail;

/// Fails unless both values are the same.
pub fn expect<T: PartialEq + Debug + Drop>(what: &str, found: T, expected: T) -> Result<(), Fail> {
    if found == expected {
        return Ok(());
    }
    Err(Fail::new(format_args!("{what}: found {found:?}, expected {expected:?}")))
}

/// How a managed pool stands.
pub fn status_of<T, D: OwnerDesk<T>>(desk: &mut D) -> Status {
    match desk.make_for_owner(&OwnerStep::Status) {
        OwnerReply::Stands(status) => status,
        _ => unreachable!(),
    }
}

/// How a pool is to stand.
pub fn stands(max_size: usize, size: usize, available: usize, waiting: usize) -> Status {
    Status {
        max_size,
        size,
        available,
        waiting,
    }
}
