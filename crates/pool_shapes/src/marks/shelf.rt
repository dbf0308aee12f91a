//! Labels in one row.
ghost use Rattle.std.specs.Prelude.{◌≡◌, ◌≤◌, ◌++◌, ◌∷◌, [], IfOk, OnErr, IsTrue, IsFalse};
ghost use Rattle.pool_shapes.specs.Drawn.Labels.{end_of, DoNotOverlap};

use std::alloc::{AllocError, Global};
use std::marker::Model;

/// Where a label stands: from one point up to, but not including, another.
#[derive(Clone, Copy, Debug)]
pub struct Span {
    pub from: usize,
    pub to: usize,
}

/// Labels in one row, from left to right. No two overlap: one that has no room is not put there.
#[derive(Drop)]
pub struct Shelf {
    spans: Vec<Span>,
    // Where the last of them ends.
    end: usize,
}

impl Model for Shelf {
    ghost use Rattle.std.specs.Prelude.{◌≡◌, List};
    ghost use Rattle.pool_shapes.specs.declared.marks.shelf.Span.{Span as SpanOf};
    ghost use Rattle.pool_shapes.specs.Drawn.Labels.{AreInOrder, end_of};

    ghost Value = { List SpanOf };

    ghost view = { λ s. s.spans.items };

    ghost invariant = { λ s. AreInOrder 0 s.spans.items × (s.end ≡ end_of s.spans.items) };
}

impl Shelf {
    /// No label.
    pub fn new(alloc: Global) -> Self
        ensures { result ≡ [] }
    {
        Shelf {
            spans: Vec::new(alloc),
            end: 0,
        }
    }

    /// What is true of all labels. The call does nothing.
    pub fn laws(&self)
        ensures { DoNotOverlap self.now }
    {
        let _ = &self.end;
    }

    /// Puts a label there, if all that are there end where it begins or further to the left, and it does not end before
    /// it begins. Says whether it is there. If there is no memory, nothing has changed.
    pub fn put(&mut self, from: usize, to: usize) -> Result<bool, AllocError>
        ensures room { end_of self.old ≤ from → from ≤ to → IfOk result (λ is_put. IsTrue is_put) }
        ensures put { IfOk result (λ is_put. IsTrue is_put
            → self.new ≡ self.old ++ record { from = from; to = to } ∷ []) }
        ensures left { IfOk result (λ is_put. IsFalse is_put → self.new ≡ self.old) }
        ensures refused { OnErr result (self.new ≡ self.old) }
    {
        if from < self.end || to < from {
            return Ok(false);
        }
        self.spans.push(Span { from, to })?;
        self.end = to;
        Ok(true)
    }
}
