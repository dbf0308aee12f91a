//! Runs of moves over an unmanaged pool, with moves and replies of their own; and its journal.

pub use deadpool_trial::unmanaged::{Item, Look, Move, Reply, Trial, laws};
pub use deadpool_unmanaged_journal::{
    ByNumber, Entry, Journal, Journaled, Nameless, Naming, OwnerReply, OwnerStep, Unnamed,
};
