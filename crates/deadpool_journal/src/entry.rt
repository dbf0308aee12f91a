//! What a journal keeps of a step.
ghost use Rattle.std.specs.Prelude.{◌≡◌, IfOk};

use deadpool_desk::{OwnerReply, OwnerStep, Removals, Reply, Step};
use std::alloc::AllocError;

/// A step of a pool with its reply, objects by number. `docs/MODEL.md` has the text of each.
#[derive(Debug, Drop, PartialEq)]
pub enum Entry {
    /// A step of a get or an object, the number of the object that it took or gave, and the reply.
    Made(Step, Option<usize>, Reply),
    /// A step of the pool's owner, and the reply.
    Owner(OwnerStep, OwnerReply),
    /// The objects that were removed, and where each of them stood among those that were idle.
    Retain(Result<Removals, AllocError>),
}

impl Entry {
    /// The same entry. That of a retain takes memory for its list.
    pub fn copied(&self) -> Result<Entry, AllocError>
        ensures { IfOk result (λ entry. entry ≡ self.now) }
    {
        match self {
            Entry::Made(step, number, reply) => Ok(Entry::Made(*step, *number, *reply)),
            Entry::Owner(step, reply) => Ok(Entry::Owner(*step, *reply)),
            Entry::Retain(Ok(noted)) => Ok(Entry::Retain(Ok(noted.copied()?))),
            Entry::Retain(Err(e)) => Ok(Entry::Retain(Err(*e))),
        }
    }
}
