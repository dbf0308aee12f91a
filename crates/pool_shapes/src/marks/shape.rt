//! What is shown of a party and of an object at one move.
ghost use Rattle.std.specs.Prelude.{◌≡◌, ◌↔◌, IsTrue};

use crate::marks::Shown;

/// How far a get or an add is.
#[derive(Clone, Copy, Debug, PartialEq, Eq)]
pub enum Stage {
    /// It was not polled yet.
    New,
    /// It waits in the queue.
    Queued,
    /// It is in the queue, and was granted what it waits for.
    Granted,
    /// It has a place and nothing else.
    Going,
    Creating,
    Recycling,
    /// A new object is seen by the hooks.
    Checking,
    /// It was given an object, which is out.
    Holding,
    /// It has ended, and has no object, or not any more.
    Ended,
    Cancelled,
}

/// What is shown of a party: its stage, and the number of the object that it has, if it has one.
#[derive(Clone, Copy, Debug, PartialEq, Eq)]
pub struct Shape {
    pub stage: Stage,
    pub object: Option<usize>,
}

/// Where an object is.
#[derive(Clone, Copy, Debug, PartialEq, Eq)]
pub enum Place {
    /// An add is to hand it in, and the pool does not have it yet.
    Offered,
    Idle,
    /// A get prepares it.
    Prepared,
    Out,
    /// The pool has it no more, or never had it.
    GivenUp,
}

impl Shape {
    /// A party without an object.
    pub fn of(stage: Stage) -> Shape
        ensures { result ≡ record { stage = stage; object = None } }
    {
        Shape {
            stage,
            object: None,
        }
    }

    /// A party with the object that has this number.
    pub fn with(stage: Stage, object: usize) -> Shape
        ensures { result ≡ record { stage = stage; object = Some object } }
    {
        Shape {
            stage,
            object: Some(object),
        }
    }
}

impl Shown for Shape {
    fn is_same(self, other: Shape) -> bool
        ensures { IsTrue result ↔ (self ≡ other) }
    {
        self == other
    }
}

impl Shown for Place {
    fn is_same(self, other: Place) -> bool
        ensures { IsTrue result ↔ (self ≡ other) }
    {
        self == other
    }
}

impl Shown for usize {
    fn is_same(self, other: usize) -> bool
        ensures { IsTrue result ↔ (self ≡ other) }
    {
        self == other
    }
}
