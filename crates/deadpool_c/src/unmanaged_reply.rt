//! Replies of an unmanaged pool's steps as plain numbers. What a kind says is said at its constant in `reply.rt`.
ghost use Rattle.std.specs.Prelude.{◌≡◌};
ghost use Rattle.deadpool_c.specs.UnmanagedReplies.{raw_made, raw_in_hand};

use crate::reply::{
    CLOSED, CROWDED, DONE, DROPPED, EXPIRED, FULL, KEPT, OBJECT, OUT_OF_MEMORY, Reply, STORED,
    TAKEN, UNKNOWN, WAITING, keyed, plain,
};
use deadpool_unmanaged::Reply as CoreReply;

/// A reply with the key of an object that is in the hand after it, which is 0 if there is none.
pub fn made(reply: &CoreReply, key: u64) -> Reply
    ensures { result ≡ raw_made reply.now key }
{
    match reply {
        CoreReply::Object => keyed(OBJECT, 0, key),
        CoreReply::Stored => plain(STORED),
        CoreReply::Closed => keyed(CLOSED, 0, key),
        CoreReply::Full => keyed(FULL, 0, key),
        CoreReply::Crowded => keyed(CROWDED, 0, key),
        CoreReply::Waiting(ticket) => keyed(WAITING, ticket.number(), key),
        CoreReply::OutOfMemory => keyed(OUT_OF_MEMORY, 0, key),
        CoreReply::Expired => plain(EXPIRED),
        CoreReply::Done => plain(DONE),
        CoreReply::Kept => plain(KEPT),
        CoreReply::Dropped => keyed(DROPPED, 0, key),
        CoreReply::Taken => plain(TAKEN),
        CoreReply::Unknown => keyed(UNKNOWN, 0, key),
    }
}

/// A reply with the object that is in the hand after it.
pub fn in_hand(reply: &CoreReply, hand: Option<u64>) -> Reply
    ensures { result ≡ raw_in_hand reply.now hand }
{
    match hand {
        Some(key) => made(reply, key),
        None => made(reply, 0),
    }
}
