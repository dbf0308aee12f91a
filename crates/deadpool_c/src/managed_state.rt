//! What stands in a managed pool's block. It has no parameter, so that it can stand behind a pointer.
use deadpool_journal::Journaled;

/// The state of a managed pool.
#[derive(Drop)]
pub struct ManagedState {
    pub pool: Journaled<u64>,
}
