//! One lane.
ghost use Rattle.std.specs.Prelude.{◌≡◌, ℕ, ◌<◌, ◌≤◌, ◌+◌, ◌++◌, ◌∷◌, [], IfOk, OnErr, length, slice_get};
ghost use Rattle.std.specs.Prelude.{option_copied};
ghost use Rattle.pool_shapes.specs.Drawn.Marks.{columns, first_column, next_column, AreLaid, AreApart, IsShownAt};

use crate::marks::{Mark, Shown};
use std::alloc::{AllocError, Global};
use std::marker::Model;

/// A lane of marks from left to right. Each begins where the one before it ends, and shows something else.
#[derive(Drop)]
pub struct Lane<T: Drop> {
    // All but the last.
    earlier: Vec<Mark<T>>,
    last: Mark<T>,
}

impl<T: Drop> Model for Lane<T> {
    ghost use Rattle.std.specs.Prelude.{List, [], ◌∷◌, ◌++◌};
    ghost use Rattle.pool_shapes.specs.declared.marks.mark.Mark.{Mark as MarkOf};
    ghost use Rattle.pool_shapes.specs.Drawn.Marks.{AreLaid, first_column};

    ghost Value = { List (MarkOf T) };

    ghost view = { λ l. l.earlier.items ++ l.last ∷ [] };

    ghost invariant = { λ l. AreLaid (first_column (l.earlier.items ++ l.last ∷ [])) (l.earlier.items ++ l.last ∷ []) };
}

impl<T: Shown + Drop> Lane<T> {
    /// A lane that begins in this column, and shows this there.
    pub fn new(alloc: Global, column: usize, shows: T) -> Self
        requires { column < usize.MAX }
        ensures { result ≡ record { shows = shows; from = column; to = column + 1 } ∷ [] }
    {
        Lane {
            earlier: Vec::new(alloc),
            last: Mark {
                shows,
                from: column,
                to: column + 1,
            },
        }
    }

    /// What is true of the marks of every lane. The call does nothing.
    pub fn laws(&self)
        ensures laid { AreLaid (first_column self.now) self.now }
        ensures apart { AreApart self.now }
        ensures shown { (c : ℕ) → first_column self.now ≤ c → c < next_column self.now → IsShownAt self.now c }
    {
        let _ = &self.last;
    }

    /// Shows this in one more column. If there is no memory for a mark, nothing has changed.
    pub fn extend(&mut self, shows: T) -> Result<(), AllocError>
        requires { next_column self.old < usize.MAX }
        ensures columns { IfOk result (λ _. columns self.new ≡ columns self.old ++ shows ∷ []) }
        ensures first { IfOk result (λ _. first_column self.new ≡ first_column self.old) }
        ensures next { IfOk result (λ _. next_column self.new ≡ next_column self.old + 1) }
        ensures refused { OnErr result (self.new ≡ self.old) }
    {
        if self.last.shows.is_same(shows) {
            self.last.to += 1;
            return Ok(());
        }
        self.earlier.push(self.last)?;
        let from = self.last.to;
        self.last = Mark {
            shows,
            from,
            to: from + 1,
        };
        Ok(())
    }

    /// How many marks it has.
    pub fn len(&self) -> usize
        ensures { result ≡ length self.now }
    {
        self.earlier.len() + 1
    }

    /// The mark at this position, from left to right.
    pub fn mark_at(&self, at: usize) -> Option<&Mark<T>>
        ensures { option_copied result ≡ slice_get self.now at }
    {
        if at == self.earlier.len() {
            return Some(&self.last);
        }
        self.earlier.get(at)
    }
}
