//! A pool of byte buffers: its manager, and what whoever is handed one of its buffers knows.
#![tactic(auto)]

mod get;
mod manager;

pub use get::{Buffer, BufferPool, GetBuffer, fill, poll_buffer};
pub use manager::{BufferError, Buffers};
