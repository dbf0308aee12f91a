//! What a retain asks, and what it gives.
ghost use Rattle.std.specs.Prelude.{◌≡◌, [], ⊤, ℕ, Bool, IfOk};

use std::alloc::{AllocError, Global};
use std::marker::Model;

/// Says which idle objects a retain keeps, and takes the value of each that is given up. It may change with each call.
///
/// An implementation states by its relations which answers its calls may give. By default every answer is allowed.
pub trait Retainer<T> {
    /// What it leaves of a value.
    type Left: Drop;

    // Holds of the retainers that may be called, and again of what each call leaves.
    ghost can_call: { Self → Type 0 } = { λ _. ⊤ };

    // Holds of each answer about an object's number and value, with the retainer that it leaves.
    ghost may_keep: { Self → ℕ → T → Bool → Self → Type 0 } = { λ _ _ _ _ _. ⊤ };

    // Holds of all that `detach` may leave of a value, with the retainer that it leaves.
    ghost may_detach: { Self → T → Self.Left → Self → Type 0 } = { λ _ _ _ _. ⊤ };

    /// Says whether an idle object is kept.
    fn keeps(&mut self, number: usize, value: &T) -> bool
        requires { can_call self.old }
        ensures answer { may_keep self.old number value.now result self.new }
        ensures can_call { can_call self.new };

    /// Takes the value of an object that is given up, and gives what is left of it.
    fn detach(&mut self, value: T) -> Self::Left
        requires { can_call self.old }
        ensures answer { may_detach self.old value result self.new }
        ensures can_call { can_call self.new };
}

/// An object that a retain gave up: how many idle objects stood before it, and its number.
#[derive(Clone, Copy, Debug, PartialEq, Eq)]
pub struct Removal {
    pub position: usize,
    pub number: usize,
}

/// The objects that a retain gave up, in order. Contracts see them as a list.
#[derive(Debug, Drop)]
pub struct Removals {
    removals: Vec<Removal>,
}

impl Model for Removals {
    ghost use Rattle.std.specs.Prelude.{List};
    ghost use Rattle.deadpool_desk.specs.declared.retain.Removal.{Removal};

    ghost Value = { List Removal };

    ghost view = { λ r. r.removals.items };
}

impl PartialEq for Removals {
    ghost use Rattle.std.specs.Cmp.Lexicographic.{pointwise, lists_per};
    ghost use Rattle.std.specs.Cmp.Rules.{comparing};
    ghost use Rattle.std.proofs.Common.{rules};

    ghost eq = { pointwise ⟦<Removal as PartialEq>⟧.eq };

    ghost laws = { lists_per (Prim.search (comparing, rules)) };

    fn eq(&self, other: &Removals) -> bool {
        self.removals == other.removals
    }
}

impl Removals {
    /// The objects of this list.
    pub fn new(removals: Vec<Removal>) -> Self
        ensures { result ≡ removals.items }
    {
        Removals { removals }
    }

    /// They, front to back.
    pub fn as_slice(&self) -> &[Removal]
        ensures { result.now ≡ self.now }
    {
        self.removals.as_slice()
    }

    /// A copy of them.
    pub fn copied(&self) -> Result<Removals, AllocError>
        ensures { IfOk result (λ removals. removals ≡ self.now) }
    {
        let removals = self.removals.clone()?;
        Ok(Removals { removals })
    }
}

/// What became of the idle objects in a retain.
#[derive(Debug, Drop)]
pub struct RetainResult<T> {
    /// How many stay.
    pub retained: usize,
    /// What `detach` left of the others, in order.
    pub removed: Vec<T>,
}

impl<T> Model for RetainResult<T> {
    ghost use Rattle.deadpool_desk.specs.Retained.{Retained};

    ghost Value = { Retained T };

    ghost view = { λ r. record { retained = r.retained; removed = r.removed.items } };
}

impl<T> RetainResult<T> {
    /// What a retain gives where nothing is idle. It takes no memory.
    pub fn empty(alloc: Global) -> Self
        ensures { result ≡ record { retained = 0; removed = [] } }
    {
        RetainResult {
            retained: 0,
            removed: Vec::new(alloc),
        }
    }
}
