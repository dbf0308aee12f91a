//! The language of scripts of moves over a pool: what a line says, the pool and the manager that it is said to, and the
//! text of its reply. `play` reads a script from any reader and writes the replies, line by line. `expect_script` plays
//! scripts whose lines stand with their replies, and fails at the first that has another.
#![tactic(auto)]

mod calls;
mod checking;
mod engine;
mod expecting;
mod fault;
mod lines;
mod lists;
mod making;
mod manager;
mod mismatch;
mod opening;
mod players;
mod script;
mod standing;
mod stopped;
mod texts;
mod watching;

pub use checking::{check_script, compare, sides_of};
pub use engine::{play, play_script, refuse};
pub use expecting::{expect_crowd, expect_over, expect_script, find_mismatch};
pub use fault::Fault;
pub use lines::{read_line, without_line_feed, write_out};
pub use manager::{Answer, Answers, HasAnswers, Kind, Refused, ScriptHook, ScriptManager};
pub use mismatch::Mismatch;
pub use opening::{ManagedTrial, PARTIES, Refusal, ScriptPool, UnmanagedTrial, open_pool};
pub use script::{
    Excerpt, Language, LineError, ManagedLine, ManagedPool, PoolLine, Reason, ScriptLine, Settings,
    UnmanagedLine, UnmanagedPool, Wanted, is_skipped, parse_managed, parse_number, parse_pool,
    parse_script_line, parse_unmanaged, parse_unmanaged_line,
};
pub use standing::{Colour, Standing};
pub use stopped::{Detail, Stopped};
pub use texts::{
    end_line, write_left, write_managed, write_remainder, write_status, write_tally,
    write_unmanaged, write_unmanaged_tally,
};
pub use watching::watch_script;
