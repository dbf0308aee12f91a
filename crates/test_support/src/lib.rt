//! What tests of pools share: worked scripts, texts of what was not as expected, journals that are driven again, and a
//! hoard of all memory.
#![tactic(auto)]

pub mod builders;
pub mod expected;
pub mod hoard;
pub mod journals;
pub mod lines;
pub mod scripts;
