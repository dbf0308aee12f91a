//! A clock of real time for pools.

pub use deadpool_timer::{Timer, TimerAlarm, TimerClock};
