//! What a picture of a run shows, as data: lanes of marks, one lane above the other. A mark says what its lane shows
//! over some columns, of which there is one for each move.
mod lane;
mod lanes;
mod mark;
mod shape;
mod shelf;

pub use lane::Lane;
pub use lanes::Lanes;
pub use mark::{Mark, Shown};
pub use shape::{Place, Shape, Stage};
pub use shelf::{Shelf, Span};
