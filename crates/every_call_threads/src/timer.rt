//! A timer that nobody waits by.
use deadpool_threads::Host;
use deadpool_timer::Timer;
use std::io;
use std::io::Print;
use std::time::Clock;

/// Prints what the calls gave.
pub fn calls<R: Host + Clock + Print>(rt: R) -> io::Result<()> {
    let timer = Timer::start(rt.alloc(), rt)?;
    println!(rt; "alarms: {}", timer.alarms())
}
