//! What a lane shows of a party.
ghost use Rattle.std.specs.Prelude.{◌≡◌};
ghost use Rattle.pool_shapes.specs.Shapes.{shape_of, unmanaged_shape_of, ended_with};

use crate::marks::{Shape, Stage};
use deadpool_trial::{Look, unmanaged};

/// What is shown of a get of a managed pool that has started, with the object that it was given and that is out.
pub fn shape_of(look: Look, given: Option<usize>) -> Shape
    ensures { result ≡ shape_of look given }
{
    match look {
        Look::NoSuch => Shape::of(Stage::Cancelled),
        Look::Unpolled => Shape::of(Stage::New),
        Look::Queued => Shape::of(Stage::Queued),
        Look::Granted => Shape::of(Stage::Granted),
        Look::Going => Shape::of(Stage::Going),
        Look::Creating => Shape::of(Stage::Creating),
        Look::Recycling(number) => Shape::with(Stage::Recycling, number),
        Look::Checking(number) => Shape::with(Stage::Checking, number),
        Look::Finished => ended_with(given),
    }
}

/// The same of a get or an add of an unmanaged pool.
pub fn unmanaged_shape_of(look: unmanaged::Look, given: Option<usize>) -> Shape
    ensures { result ≡ unmanaged_shape_of look given }
{
    match look {
        unmanaged::Look::NoSuch => Shape::of(Stage::Cancelled),
        unmanaged::Look::NewGet => Shape::of(Stage::New),
        unmanaged::Look::QueuedGet => Shape::of(Stage::Queued),
        unmanaged::Look::GrantedGet => Shape::of(Stage::Granted),
        unmanaged::Look::NewAdd(number) => Shape::with(Stage::New, number),
        unmanaged::Look::QueuedAdd(number) => Shape::with(Stage::Queued, number),
        unmanaged::Look::GrantedAdd(number) => Shape::with(Stage::Granted, number),
        unmanaged::Look::Finished => ended_with(given),
    }
}

fn ended_with(given: Option<usize>) -> Shape
    ensures { result ≡ ended_with given }
{
    match given {
        Some(number) => Shape::with(Stage::Holding, number),
        None => Shape::of(Stage::Ended),
    }
}
