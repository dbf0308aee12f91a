//! The queue of both pools, beside one over a plain vector.

use crate::cancels::cancels;
use crate::host::Host;
use crate::line::Line;
use crate::table::Table;
use crate::vector_gate::VectorGate;
use deadpool::gate::{Entry, Gate, Ticket};
use std::io;

// Who is searched for in a vector of more than so many takes too long.
const MOST_IN_VECTOR: usize = 1_000;

impl Line for Gate {
    type Waiter = Ticket;

    fn join(&mut self) -> io::Result<Ticket> {
        match self.enter(0, true) {
            Entry::Waiting(ticket) => Ok(ticket),
            _ => Err(io::Error::other("the gate let nobody wait")),
        }
    }

    fn leave(&mut self, ticket: Ticket) {
        self.withdraw(ticket);
    }

    fn waiting(&self) -> usize {
        Gate::waiting(self)
    }
}

/// Times who leaves the middle of either queue.
pub fn measure<R: Host>(table: Table<R>) -> io::Result<()> {
    table.head("queue")?;
    for waiters in table.scale.waiters {
        measure_gate(table, waiters)?;
    }
    for waiters in table.scale.waiters {
        if waiters <= MOST_IN_VECTOR {
            measure_vector(table, waiters)?;
        }
    }
    Ok(())
}

fn measure_gate<R: Host>(table: Table<R>, waiters: usize) -> io::Result<()> {
    let mut gates = Vec::new(table.rt.alloc());
    for _gate in 0..lines(waiters) {
        gates.push(Gate::new(table.rt.alloc()))?;
    }
    cancels(table, "withdraw from the middle", gates, waiters)?;
    Ok(())
}

fn measure_vector<R: Host>(table: Table<R>, waiters: usize) -> io::Result<()> {
    let mut gates = Vec::new(table.rt.alloc());
    for _gate in 0..lines(waiters) {
        gates.push(VectorGate::new(table.rt.alloc()))?;
    }
    cancels(table, "withdraw from a plain vector", gates, waiters)?;
    Ok(())
}

// How many lines are timed together, so that a reading of the clock weighs little.
fn lines(waiters: usize) -> usize {
    if waiters < 1_000 { 100 } else { 1 }
}
