//! A clock of real time for pools: one thread wakes the tasks whose deadlines have come.
//!
//! A `Timer` has the thread. Each pool is given a `TimerClock` of it, on the system's monotonic clock. A wait has one
//! alarm at a time, which its pool drops when the wait is over.
#![tactic(auto)]

mod alarms;
mod lock;
mod nap;
mod timer;

pub use alarms::{Alarms, Next, Place};
pub use timer::{Timer, TimerAlarm, TimerClock};
