//! Entries of a journal as plain numbers.
ghost use Rattle.std.specs.Prelude.{◌≡◌, Some, None};
ghost use Rattle.deadpool_c.specs.Entries.{no_standing, noted, noted_at, noted_for_owner, noted_made, noted_retain};
ghost use Rattle.deadpool_c.specs.Entries.{removed_at, standing_in};

use crate::managed_reply;
use crate::reply::{self, DONE, OUT_OF_MEMORY, Reply, Standing, UNKNOWN, numbered, plain};
use crate::step::{
    AGAIN, ASK, BACK, CANCEL_CREATION, CANCEL_OBJECT, CANCEL_PLACE, CLONE_HANDLE, CLOSE, DISCARD,
    DROP_HANDLE, ENTER, FAILED, NEW_OBJECT, NO_ENTRY, REFUSED, RESIZE, RETAIN, STATUS, TAKE,
    UPGRADE, WITHDRAW,
};
use deadpool_desk::{Held, OwnerReply, OwnerStep, Removals, Step};
use deadpool_journal::Entry;
use std::alloc::AllocError;

/// A step of a pool as its journal has it.
#[repr(C)]
#[derive(Clone, Copy, Debug, PartialEq, Eq)]
pub struct NotedStep {
    /// One of the constants from `NO_ENTRY` to `UPGRADE`.
    pub step: u64,
    /// As the step was asked for.
    pub is_set: bool,
    /// As the step was asked for, or the limit of a resize.
    pub number: usize,
    /// The reply that the step had.
    pub reply: Reply,
    /// Of `STATUS` how the pool stood.
    pub standing: Standing,
}

fn noted_as(step: u64, is_set: bool, number: usize, reply: Reply) -> NotedStep
    ensures { result ≡ noted step is_set number reply }
{
    NotedStep {
        step,
        is_set,
        number,
        reply,
        standing: no_standing(),
    }
}

fn no_standing() -> Standing
    ensures { result ≡ no_standing }
{
    Standing {
        max_size: 0,
        size: 0,
        available: 0,
        waiting: 0,
    }
}

/// What is read where no entry stands.
pub fn no_entry() -> NotedStep
    ensures { result ≡ noted_at None }
{
    noted_as(NO_ENTRY, false, 0, plain(UNKNOWN))
}

/// An entry as plain numbers.
pub fn noted(entry: &Entry) -> NotedStep
    ensures { result ≡ noted_at (Some entry.now) }
{
    match entry {
        Entry::Made(step, object, reply) => {
            let object = object.unwrap_or(0);
            made(step, object, managed_reply::made(reply, object, 0))
        }
        Entry::Owner(step, reply) => for_owner(
            step,
            managed_reply::for_owner(reply, 0),
            standing_in(reply),
        ),
        Entry::Retain(reply) => noted_as(RETAIN, false, 0, retained(reply)),
    }
}

// How the pool stood, if that was asked.
fn standing_in(reply: &OwnerReply) -> Standing
    ensures { result ≡ standing_in reply.now }
{
    match reply {
        OwnerReply::Stands(status) => reply::stood(*status),
        _ => no_standing(),
    }
}

// A step of the owner, by the numbers that ask for it.
fn for_owner(step: &OwnerStep, reply: Reply, standing: Standing) -> NotedStep
    ensures { result ≡ noted_for_owner step.now reply standing }
{
    let (step, number) = match step {
        OwnerStep::Status => (STATUS, 0),
        OwnerStep::Resize { limit } => (RESIZE, *limit),
        OwnerStep::Close => (CLOSE, 0),
        OwnerStep::CloneHandle => (CLONE_HANDLE, 0),
        OwnerStep::DropHandle => (DROP_HANDLE, 0),
        OwnerStep::Upgrade => (UPGRADE, 0),
    };
    NotedStep {
        step,
        is_set: false,
        number,
        reply,
        standing,
    }
}

// A step of a get or an object, by the numbers that ask for it.
fn made(step: &Step, object: usize, reply: Reply) -> NotedStep
    ensures { result ≡ noted_made step.now object reply }
{
    match step {
        Step::Enter { wait } => noted_as(ENTER, *wait, 0, reply),
        Step::Ask { ticket, expired } => noted_as(ASK, *expired, ticket.number(), reply),
        Step::Again { allowance: None } => noted_as(AGAIN, false, 0, reply),
        Step::Again {
            allowance: Some(allowance),
        } => noted_as(AGAIN, true, *allowance, reply),
        Step::Discard => noted_as(DISCARD, false, 0, reply),
        Step::Created => noted_as(NEW_OBJECT, false, 0, reply),
        Step::Failed => noted_as(FAILED, false, 0, reply),
        Step::Refused => noted_as(REFUSED, false, 0, reply),
        Step::Back => noted_as(BACK, false, object, reply),
        Step::Withdraw { ticket } => noted_as(WITHDRAW, false, ticket.number(), reply),
        Step::Cancel(Held::Place) => noted_as(CANCEL_PLACE, false, 0, reply),
        Step::Cancel(Held::Creation) => noted_as(CANCEL_CREATION, false, 0, reply),
        Step::Cancel(Held::Object) => noted_as(CANCEL_OBJECT, false, 0, reply),
        Step::Take => noted_as(TAKE, false, 0, reply),
    }
}

// How many were removed.
fn retained(reply: &Result<Removals, AllocError>) -> Reply
    ensures { result ≡ noted_retain reply.now }
{
    match reply {
        Ok(removals) => numbered(DONE, removals.as_slice().len()),
        Err(_) => plain(OUT_OF_MEMORY),
    }
}

/// Of an entry of a retain the object that was removed at this index.
pub fn removal(entry: &Entry, index: usize) -> Reply
    ensures { result ≡ removed_at (Some entry.now) index }
{
    match entry {
        Entry::Retain(Ok(removals)) => match removals.as_slice().get(index) {
            Some(removal) => Reply {
                kind: DONE,
                number: removal.number,
                key: 0,
                left: removal.position,
            },
            None => plain(UNKNOWN),
        },
        _ => plain(UNKNOWN),
    }
}
