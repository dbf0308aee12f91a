//! The steps of a pool that its owner makes, as values, and their replies.
ghost use Rattle.std.specs.Prelude.{◌≡◌};
ghost use Rattle.deadpool_unmanaged.specs.Room.{SameRoom};
ghost use Rattle.deadpool_unmanaged_journal.specs.OwnerSteps.{DoesForOwner, IsOwnerReplyTo, reply_for};

use deadpool_unmanaged::{Core, HandleReply, Status};

/// A step of a pool's owner. Nothing is in a hand: it takes no object and gives none.
#[derive(Clone, Copy, Debug, PartialEq, Eq)]
pub enum OwnerStep {
    /// The owner asks how the pool stands.
    Status,
    /// The pool closes for good. The idle objects are dropped, and the limit stays.
    Close,
    /// There is one more handle. A count that has reached the greatest `u64` stays there.
    CloneHandle,
    /// There is one handle less. The last one takes the idle objects with it, which are dropped. A count that has
    /// reached the greatest `u64` stays there.
    DropHandle,
    /// There is one more handle, for an owner that has none.
    Upgrade,
}

/// The reply to a step of the owner.
#[derive(Clone, Copy, Debug, PartialEq, Eq)]
pub enum OwnerReply {
    /// The pool stands so.
    Stands(Status),
    Done,
    /// The pool has no handle left. Nothing has changed.
    NoHandle,
}

impl OwnerStep {
    /// Makes the step, and notes it nowhere.
    pub fn make<T: Drop>(&self, core: &mut Core<T>) -> OwnerReply
        ensures made { DoesForOwner core.old.pool self.now result core.new.pool }
        ensures fits { IsOwnerReplyTo self.now result }
        ensures room { SameRoom core.old core.new }
    {
        match self {
            OwnerStep::Status => OwnerReply::Stands(core.status()),
            OwnerStep::Close => {
                core.close();
                OwnerReply::Done
            }
            OwnerStep::CloneHandle => reply_for(core.clone_handle()),
            OwnerStep::DropHandle => reply_for(core.drop_handle()),
            OwnerStep::Upgrade => {
                if core.upgrade() {
                    OwnerReply::Done
                } else {
                    OwnerReply::NoHandle
                }
            }
        }
    }
}

// The reply of a step that needs a handle.
fn reply_for(reply: HandleReply) -> OwnerReply
    ensures { result ≡ reply_for reply }
{
    match reply {
        HandleReply::Done => OwnerReply::Done,
        HandleReply::NoHandle => OwnerReply::NoHandle,
    }
}
