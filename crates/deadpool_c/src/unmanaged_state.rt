//! What stands in an unmanaged pool's block. It has no parameter, so that it can stand behind a pointer.
use deadpool_unmanaged::Core;

/// The state of an unmanaged pool.
#[derive(Drop)]
pub struct UnmanagedState {
    pub pool: Core<u64>,
}
