//! The runtime of a program that waits.
use std::random::RandomSource;
use std::sync::Wait;

/// What a pool and its gets need: locks, memory, and the random bytes that an executor begins with.
pub trait Host: Wait + RandomSource + AllocGlobal + Drop + Copy + Send + Sync {}

impl<R: Wait + RandomSource + AllocGlobal + Drop + Copy + Send + Sync> Host for R {}
