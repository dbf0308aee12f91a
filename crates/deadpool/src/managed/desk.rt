//! What a managed pool is made of: its state on one thread with the steps of gets and of its owner, their replies, and
//! a get as a state that its owner polls. Who uses a pool needs none of it.

pub use deadpool_managed::{
    Core, Counts, Desk, Environment, GetState, Held, Hooks, Kept, OwnerDesk, OwnerReply, OwnerStep,
    Position, Removal, Removals, Reply, Retainer, Slot, StageKind, Step, Turn, laws,
};
pub use deadpool_shared::Seat;
