//! Lanes, one above the other.
ghost use Rattle.std.specs.Prelude.{◌≡◌, ℕ, ◌<◌, ◌≤◌, ◌+◌, ◌++◌, ◌∷◌, [], List, IfOk, length, slice_get, Option};
ghost use Rattle.std.specs.Prelude.{option_copied};
ghost use Rattle.pool_shapes.specs.Drawn.Frames.{Draws, AllExtend, AllBegin, lane_at};
ghost use Rattle.pool_shapes.specs.Drawn.Marks.{next_column};

use crate::marks::{Lane, Shown};
use std::alloc::{AllocError, Global};
use std::marker::Model;

/// Lanes that all end in the same column. One that begins later stands below those that were there.
#[derive(Drop)]
pub struct Lanes<T: Drop> {
    lanes: Vec<Lane<T>>,
    columns: usize,
    alloc: Global,
}

impl<T: Drop> Model for Lanes<T> {
    ghost use Rattle.pool_shapes.specs.Drawn.Frames.{Rows};

    ghost Value = { Rows T };

    ghost use Rattle.pool_shapes.specs.Drawn.Frames.{EndAt};

    ghost view = { λ l. record { lanes = l.lanes.items; columns = l.columns } };

    ghost invariant = { λ l. EndAt l.columns l.lanes.items };
}

impl<T: Shown + Drop> Lanes<T> {
    /// No lanes, and no columns.
    pub fn new(alloc: Global) -> Self
        ensures { Draws [] result }
    {
        Lanes {
            lanes: Vec::new(alloc),
            columns: 0,
            alloc,
        }
    }

    /// The lanes with one more column, in which each shows its part of this, from the first lane on. For what is left
    /// new lanes begin there. If there is no memory, the lanes are given up.
    pub fn with_column(self, shown: &[T]) -> Result<Self, AllocError>
        requires room { self.columns + 1 < usize.MAX }
        requires enough { length self.lanes ≤ length shown.now }
        ensures drawn { (frames : List (List T)) → Draws frames self → IfOk result (Draws (frames ++ shown.now ∷ [])) }
        ensures columns { IfOk result (λ lanes. lanes.columns ≡ self.columns + 1) }
        ensures lanes { IfOk result (λ lanes. length lanes.lanes ≡ length shown.now) }
    {
        let Lanes {
            mut lanes,
            columns,
            alloc,
        } = self;
        extend_all(&mut lanes, shown)?;
        begin_rest(alloc, &mut lanes, columns, shown)?;
        Ok(Lanes {
            lanes,
            columns: columns + 1,
            alloc,
        })
    }

    /// How many lanes there are.
    pub fn len(&self) -> usize
        ensures { result ≡ length self.now.lanes }
    {
        self.lanes.len()
    }

    /// How many columns there are.
    pub fn columns(&self) -> usize
        ensures { result ≡ self.now.columns }
    {
        self.columns
    }

    /// The lane at this position, from the top.
    pub fn lane_at(&self, at: usize) -> Option<&Lane<T>>
        ensures { option_copied result ≡ slice_get self.now.lanes at }
    {
        self.lanes.get(at)
    }
}

// Extends each lane by its part.
fn extend_all<T: Shown + Drop>(lanes: &mut Vec<Lane<T>>, shown: &[T]) -> Result<(), AllocError>
    requires enough { length lanes.old.items ≤ length shown.now }
    requires room { (k : ℕ) → k < length lanes.old.items → next_column (lane_at k lanes.old.items) < usize.MAX }
    ensures { IfOk result (λ _. AllExtend lanes.old.items shown.now lanes.new.items) }
{
    for at in 0..lanes.len() {
        lanes[at].extend(shown[at])?;
    }
    Ok(())
}

// Begins a lane for each part that no lane has shown yet.
fn begin_rest<T: Shown + Drop>(
    alloc: Global,
    lanes: &mut Vec<Lane<T>>,
    column: usize,
    shown: &[T],
) -> Result<(), AllocError>
    requires { column < usize.MAX }
    ensures { IfOk result (λ _. AllBegin column lanes.old.items shown.now lanes.new.items) }
{
    for at in lanes.len()..shown.len() {
        lanes.push(Lane::new(alloc, column, shown[at]))?;
    }
    Ok(())
}
