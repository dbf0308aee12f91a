//! A shape for each party of a trial.
ghost use Rattle.std.specs.Prelude.{◌≡◌, IfOk};
ghost use Rattle.pool_shapes.specs.Shapes.{ShowsParties, UnmanagedShowsParties};

use crate::marks::Shape;
use crate::{shape_of, unmanaged_shape_of};
use deadpool_managed::{AsyncHook, Manager, SyncHook};
use deadpool_trial::{Trial, unmanaged};
use std::alloc::AllocError;

/// Puts a shape for each party in place of those that were there, by the party's number. `given` has what each party
/// was given.
pub fn show_parties<M: Manager, F: SyncHook<M>, A: AsyncHook<M>, C: Drop>(
    trial: &mut Trial<M, F, A, C>,
    given: &[Option<usize>],
    shapes: &mut Vec<Shape>,
) -> Result<(), AllocError>
    ensures shows { IfOk result (λ _. ShowsParties trial.old.pool given.now shapes.new.items) }
    ensures same { trial.new ≡ trial.old }
{
    shapes.clear();
    for party in 0..given.len() {
        shapes.push(shape_of(trial.look(party), given[party]))?;
    }
    Ok(())
}

/// The same for an unmanaged pool.
pub fn show_unmanaged_parties<T: Drop>(
    trial: &mut unmanaged::Trial<T>,
    given: &[Option<usize>],
    shapes: &mut Vec<Shape>,
) -> Result<(), AllocError>
    ensures shows { IfOk result (λ _. UnmanagedShowsParties trial.old given.now shapes.new.items) }
    ensures same { trial.new ≡ trial.old }
{
    shapes.clear();
    for party in 0..given.len() {
        shapes.push(unmanaged_shape_of(trial.look(party), given[party]))?;
    }
    Ok(())
}
