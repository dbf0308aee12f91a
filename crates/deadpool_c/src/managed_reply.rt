//! Replies of a managed pool's steps as plain numbers. What a kind says is said at its constant in `reply.rt`.
ghost use Rattle.std.specs.Prelude.{◌≡◌};
ghost use Rattle.deadpool_c.specs.ManagedReplies.{raw_made, raw_in_hand, raw_for_owner};

use crate::reply::{
    CLOSED, CREATE, CREATED, CROWDED, DETACH, DONE, DROPPED, EXHAUSTED, EXPIRED, FULL, GOING, KEPT,
    NO_HANDLE, OBJECT, OUT_OF_MEMORY, Reply, TAKEN, UNKNOWN, WAITING, keyed, numbered, plain,
};
use deadpool_desk::{OwnerReply, Reply as DeskReply, Slot};

/// A reply with the number and the key of an object that is in the hand after it. Both are 0 if there is none.
pub fn made(reply: &DeskReply, number: usize, key: u64) -> Reply
    ensures { result ≡ raw_made reply.now number key }
{
    match reply {
        DeskReply::Object { left } => Reply {
            kind: OBJECT,
            number,
            key,
            left: *left,
        },
        DeskReply::Create => plain(CREATE),
        DeskReply::Going => plain(GOING),
        DeskReply::Exhausted => plain(EXHAUSTED),
        DeskReply::Closed => plain(CLOSED),
        DeskReply::Full => plain(FULL),
        DeskReply::Crowded => plain(CROWDED),
        DeskReply::Waiting(ticket) => numbered(WAITING, ticket.number()),
        DeskReply::OutOfMemory => plain(OUT_OF_MEMORY),
        DeskReply::Expired => plain(EXPIRED),
        DeskReply::Done => plain(DONE),
        DeskReply::Number(number) => numbered(CREATED, *number),
        DeskReply::Kept => plain(KEPT),
        DeskReply::Detach => keyed(DETACH, number, key),
        DeskReply::Dropped => keyed(DROPPED, number, key),
        DeskReply::Taken { detach: true } => plain(DETACH),
        DeskReply::Taken { detach: false } => plain(TAKEN),
        DeskReply::Unknown => keyed(UNKNOWN, number, key),
    }
}

/// A reply with the object that is in the hand after it.
pub fn in_hand(reply: &DeskReply, hand: &Option<Slot<u64>>) -> Reply
    ensures { result ≡ raw_in_hand reply.now hand.now }
{
    match hand {
        Some(slot) => made(reply, slot.number, slot.value),
        None => made(reply, 0, 0),
    }
}

/// The reply to a step of the owner, with which so many idle objects go.
pub fn for_owner(reply: &OwnerReply, count: usize) -> Reply
    ensures { result ≡ raw_for_owner reply.now count }
{
    match reply {
        OwnerReply::Stands(_) | OwnerReply::Done => numbered(DONE, count),
        OwnerReply::OutOfMemory => plain(OUT_OF_MEMORY),
        OwnerReply::NoHandle => plain(NO_HANDLE),
    }
}
