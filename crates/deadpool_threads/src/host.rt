//! The runtime of a program with threads.

use std::random::RandomSource;
use std::sync::Wait;
use std::thread::Threads;

/// The handles that a program needs whose threads share a pool: it takes locks, starts threads, and finds memory and
/// the random bytes that an executor begins with.
pub trait Host: Wait + Threads + RandomSource + AllocGlobal + Drop + Copy + Send + Sync + 'static {}

impl<R: Wait + Threads + RandomSource + AllocGlobal + Drop + Copy + Send + Sync + 'static> Host
    for R {}
