//! One history that callers share, as tokens: who may add to it, what was seen of it, and what it has of each caller.
//! They take no bytes, and their functions do nothing at run time.
#![tactic(auto)]

mod author;
mod beginning;
mod blank;
mod caller;
mod page;
#[cfg(test)]
mod tests;

pub use author::{Author, Says};
pub use beginning::Beginning;
pub use blank::{Blank, Chronicle};
pub use caller::Caller;
