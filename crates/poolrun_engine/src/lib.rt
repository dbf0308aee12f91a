//! The program that plays a script of moves over a pool: it reads one line after the other, and writes the reply to
//! each before it reads the next. `run` is the whole program. It can also have threads count by one pool, and put each
//! line into a buffer of a pool.
#![tactic(auto)]

mod arguments;
pub mod buffers;
mod counting;
mod help;
mod program;

pub use arguments::Task;
pub use counting::Crowd;
pub use pool_scripts::{Fault, play, write_unmanaged};
pub use program::run;
