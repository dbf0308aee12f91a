//! All memory that there is, so that a call finds none.
use std::alloc::{AllocError, Global};

// What a test keeps for itself.
const CUSHION: usize = 8 << 20;

// What a call may find is a part of one block of the cushion, of this size or of twice its own. A larger one would not
// be found again, since an allocator keeps small blocks where they were.
const SPARE: usize = 1 << 12;

// More than a machine gives at once.
const GREATEST: usize = 1 << 40;

// How many blocks the machine's memory is in at most, and how many the cushion is in.
const FAR_BLOCKS: usize = 100_000;

const NEAR_BLOCKS: usize = 10_000;

// Blocks of more than this size are tried in halves, and the others in steps.
const SMALL: usize = 2_048;

const STEP: usize = 16;

/// All memory that there is but a cushion, in vectors of which no byte is written.
#[derive(Drop)]
pub struct Hoard {
    alloc: Global,
    // Taken to the end.
    far: Vec<Vec<u8>>,
    // What is taken of the cushion.
    near: Vec<Vec<u8>>,
}

impl Hoard {
    /// Takes all memory but the cushion.
    pub fn new(alloc: Global) -> Result<Self, AllocError> {
        let mut far = Vec::with_capacity(alloc, FAR_BLOCKS)?;
        let near = Vec::with_capacity(alloc, NEAR_BLOCKS)?;
        // An allocator that was given back so much at once keeps smaller blocks in hand.
        let large: Vec<u8> = Vec::with_capacity(alloc, 2 * CUSHION)?;
        drop(large);
        let cushion: Vec<u8> = Vec::with_capacity(alloc, CUSHION)?;
        take_all(alloc, GREATEST, &mut far)?;
        drop(cushion);
        Ok(Hoard { alloc, far, near })
    }

    /// Takes the cushion too, but for so many bytes.
    pub fn take(&mut self, left: usize) -> Result<(), AllocError> {
        let size = left.saturating_mul(2).max(SPARE);
        let spare: Vec<u8> = Vec::with_capacity(self.alloc, size)?;
        take_all(self.alloc, CUSHION, &mut self.near)?;
        drop(spare);
        let filler: Vec<u8> = Vec::with_capacity(self.alloc, size.saturating_sub(left))?;
        self.near.push(filler)?;
        Ok(())
    }

    /// Lets the cushion go.
    pub fn let_go(&mut self) {
        self.near.clear();
    }
}

// Takes blocks of this size and less, down to one byte, until there are none.
fn take_all(alloc: Global, largest: usize, blocks: &mut Vec<Vec<u8>>) -> Result<(), AllocError> {
    let mut size = largest;
    let room = blocks.capacity().saturating_sub(blocks.len());
    for _try in 0..room.saturating_sub(1) {
        match Vec::with_capacity(alloc, size) {
            Ok(block) => blocks.push(block)?,
            Err(_) if size > 1 => size = smaller(size),
            Err(_) => return Ok(()),
        }
    }
    Err(AllocError)
}

fn smaller(size: usize) -> usize {
    if size > SMALL {
        size / 2
    } else {
        size.saturating_sub(STEP).max(1)
    }
}

/// What a call is left with that found too little memory with so much. No less is added than the smallest block that an
/// allocator tells apart, and of a large amount a small part.
pub fn more(left: usize) -> usize {
    left.saturating_add(STEP.saturating_mul(left / 4_096).max(STEP))
}
