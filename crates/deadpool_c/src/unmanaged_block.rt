//! An unmanaged pool as code that is not Rattle holds it: a pointer.
ghost use Rattle.std.specs.Prelude.{◌≡◌};
ghost use denote.RawPtr.{InBlock};
ghost use Rattle.deadpool_c.specs.declared.unmanaged_state.UnmanagedState.{UnmanagedState};
ghost use Rattle.deadpool_c.specs.UnmanagedOwned.{unmanaged_coded, unmanaged_owns};

use crate::unmanaged_state::UnmanagedState;
use std::alloc::Global;
use std::marker::Model;

/// An unmanaged pool, which the caller passes back unchanged. It owns its state, which lies where `at` points. With a
/// null pointer it is no pool, and owns nothing.
#[repr(C)]
#[derive(Drop)]
pub struct UnmanagedPool {
    /// Where its state lies, or null.
    pub at: *mut u8,
    alloc: Global,
    pub ghost state: { UnmanagedState } by { unmanaged_coded },
}

impl Model for UnmanagedPool {
    ghost also_owns = { λ p. unmanaged_owns p.alloc p.at p.state };
}

impl UnmanagedPool {
    /// The pool with this state.
    pub fn of(state: Box<UnmanagedState>) -> UnmanagedPool
        ensures made { InBlock result.at }
        ensures state { result.state ≡ state.value }
    {
        let (state, alloc) = Box::into_raw_with_allocator(state);
        UnmanagedPool {
            at: state as *mut u8,
            alloc,
        }
    }

    /// Its state. Its pointer is not null.
    pub fn into_state(self) -> Box<UnmanagedState>
        requires { InBlock self.at }
        ensures { result.value ≡ self.state }
    {
        let UnmanagedPool { at, alloc } = self;
        unsafe { Box::from_raw(alloc, at as *mut UnmanagedState) }
    }
}

// The state has no part that is bound to a thread.
unsafe impl Send for UnmanagedPool {}
