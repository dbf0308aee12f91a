//! A managed pool as code that is not Rattle holds it: a pointer.
ghost use Rattle.std.specs.Prelude.{◌≡◌};
ghost use denote.RawPtr.{InBlock};
ghost use Rattle.deadpool_c.specs.declared.managed_state.ManagedState.{ManagedState};
ghost use Rattle.deadpool_c.specs.ManagedOwned.{managed_coded, managed_owns};

use crate::managed_state::ManagedState;
use std::alloc::Global;
use std::marker::Model;

/// A managed pool, which the caller passes back unchanged. It owns its state, which lies where `at` points. With a null
/// pointer it is no pool, and owns nothing.
#[repr(C)]
#[derive(Drop)]
pub struct ManagedPool {
    /// Where its state lies, or null.
    pub at: *mut u8,
    alloc: Global,
    pub ghost state: { ManagedState } by { managed_coded },
}

impl Model for ManagedPool {
    ghost also_owns = { λ p. managed_owns p.alloc p.at p.state };
}

impl ManagedPool {
    /// The pool with this state.
    pub fn of(state: Box<ManagedState>) -> ManagedPool
        ensures made { InBlock result.at }
        ensures state { result.state ≡ state.value }
    {
        let (state, alloc) = Box::into_raw_with_allocator(state);
        ManagedPool {
            at: state as *mut u8,
            alloc,
        }
    }

    /// Its state. Its pointer is not null.
    pub fn into_state(self) -> Box<ManagedState>
        requires { InBlock self.at }
        ensures { result.value ≡ self.state }
    {
        let ManagedPool { at, alloc } = self;
        unsafe { Box::from_raw(alloc, at as *mut ManagedState) }
    }
}

// The state has no part that is bound to a thread.
unsafe impl Send for ManagedPool {}
