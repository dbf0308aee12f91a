//! How often a script's manager was asked, which no script of the program sees.
use std::alloc::AllocError;
use std::cell::Cell;

/// How often a manager was asked.
#[derive(Drop)]
pub struct Calls {
    /// Creations that it began.
    pub created: Cell<usize>,
    /// Recyclings that it began.
    pub recycled: Cell<usize>,
    /// Polls of creations and of recyclings.
    pub polled: Cell<usize>,
    /// Objects that it was told to be detached.
    pub detached: Cell<usize>,
}

impl Calls {
    /// It was asked nothing yet.
    pub fn new() -> Self {
        Calls {
            created: Cell::new(0),
            recycled: Cell::new(0),
            polled: Cell::new(0),
            detached: Cell::new(0),
        }
    }

    /// Appends how often, as a line.
    pub fn write(&self, text: &mut String) -> Result<(), AllocError> {
        let (created, recycled) = (self.created.get(), self.recycled.get());
        let (polled, detached) = (self.polled.get(), self.detached.get());
        writeln!(
            text,
            "create {created} recycle {recycled} poll {polled} detach {detached}"
        )
    }
}

/// Once more.
pub fn count(calls: &Cell<usize>) {
    calls.set(calls.get().saturating_add(1));
}
