//! A line over a plain vector. Who leaves is searched for from the front, and all behind it move up.

use crate::line::Line;
use std::alloc::Global;
use std::io;

#[derive(Drop)]
pub struct VectorGate {
    // The tickets, in order of arrival.
    listed: Vec<u64>,
    joined: u64,
}

impl VectorGate {
    /// A line with nobody in it.
    pub fn new(alloc: Global) -> Self {
        VectorGate {
            listed: Vec::new(alloc),
            joined: 0,
        }
    }
}

impl Line for VectorGate {
    type Waiter = u64;

    fn join(&mut self) -> io::Result<u64> {
        let ticket = self.joined;
        self.listed.push(ticket)?;
        self.joined = self.joined.saturating_add(1);
        Ok(ticket)
    }

    fn leave(&mut self, ticket: u64) {
        if let Some(index) = self.listed.iter().position(|listed| *listed == ticket) {
            self.listed.remove(index);
        }
    }

    fn waiting(&self) -> usize {
        self.listed.len()
    }
}
