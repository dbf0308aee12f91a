//! What makes the buffers, and empties those that come back.
ghost use Rattle.std.specs.Prelude.{◌≡◌, [], Some, codes};
ghost use Rattle.deadpool_buffers.specs.Answers.{EmptiesOrRefuses, MakesEmpty};

use deadpool::managed::{Metrics, RecycleError, RecycleResult};
use deadpool_threads::PlainManager;
use std::alloc::Global;
use std::fmt;

/// Why there is no buffer.
#[derive(Clone, Copy, Debug, PartialEq, Eq)]
pub enum BufferError {
    /// There was no memory for its bytes.
    OutOfMemory,
}

impl fmt::Display for BufferError {
    ghost output = { λ _. Some (codes "No memory for a buffer") };

    fn fmt<W: fmt::Write>(&self, f: &mut fmt::Formatter<W>) -> fmt::Result {
        f.write_str("No memory for a buffer")
    }
}

/// The manager of a pool whose objects are vectors of bytes. It hands out empty ones alone.
#[derive(Drop)]
pub struct Buffers {
    pub alloc: Global,
    /// For how many bytes a new buffer has room.
    pub reserve: usize,
    /// How long a buffer may come back that is used again.
    pub most: usize,
}

impl PlainManager for Buffers {
    type Type = Vec<u8>;

    type Error = BufferError;

    ghost is_ready = { λ buffer. buffer.items ≡ [] };

    ghost may_create = { λ buffers answer. MakesEmpty buffers.reserve answer };

    ghost may_recycle = { λ buffers buffer _ answer left. EmptiesOrRefuses buffers.most buffer answer left };

    ghost may_detach = { λ _ buffer left. left ≡ buffer };

    fn create(&self) -> Result<Vec<u8>, BufferError> {
        let buffer = Vec::with_capacity(self.alloc, self.reserve);
        buffer.map_err(|_| BufferError::OutOfMemory)
    }

    fn recycle(&self, buffer: &mut Vec<u8>, _metrics: &Metrics) -> RecycleResult<BufferError> {
        if buffer.len() > self.most {
            return Err(RecycleError::message("buffer too long"));
        }
        buffer.clear();
        Ok(())
    }
}
