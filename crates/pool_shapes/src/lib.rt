//! What a picture shows of a pool at one move: a shape for each party, taken from a trial; and of a run, in `marks`.
#![tactic(auto)]

mod given;
mod handed;
pub mod marks;
mod parties;
mod shapes;

pub use given::Given;
pub use handed::{Handover, handed_over, has_ended, has_given_up, has_place, is_granted};
pub use parties::{show_parties, show_unmanaged_parties};
pub use shapes::{shape_of, unmanaged_shape_of};
