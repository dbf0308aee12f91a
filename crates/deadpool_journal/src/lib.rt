//! A managed pool's state with a journal of its steps, for whoever keeps both under a lock. Nothing here takes one.
#![tactic(auto)]

mod entry;
mod journal;
mod journaled;
pub mod laws;
mod log;
mod report;
mod tally;
mod texts;

pub use entry::Entry;
pub use journal::Journal;
pub use journaled::Journaled;
pub use report::Report;
pub use tally::Tally;
