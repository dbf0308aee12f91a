//! A managed pool's builder with each of its settings.
use crate::zeros::Zeros;
use deadpool_builder::PoolBuilder;
use deadpool_managed::{NoHook, QueueMode, Runtime, Timeouts};
use std::alloc::Global;
use std::io;
use std::io::Print;
use std::time::Duration;

type Builder = PoolBuilder<Zeros, NoHook, NoHook, ()>;

// All timeouts at once, and two of them again.
fn timed(alloc: Global) -> Builder {
    PoolBuilder::new(alloc, Zeros, ())
        .timeouts(Timeouts::wait_millis(50))
        .create_timeout(Some(Duration::from_secs(1)))
        .recycle_timeout(None)
        .runtime(Runtime::Clock)
}

// What limits it.
fn limited(builder: Builder) -> Builder {
    builder
        .queue_mode(QueueMode::Lifo)
        .min_idle(1)
        .max_waiting(Some(3))
        .room_for_waiting()
}

/// Prints what the calls gave.
pub fn calls<R: Print + AllocGlobal>(rt: &R) -> io::Result<()> {
    let opened = limited(timed(rt.alloc())).open(0);
    let has_room = opened.is_ok_and(|pool| pool.core.has_room_for_waiting());
    println!(rt; "builder: {has_room}")
}
