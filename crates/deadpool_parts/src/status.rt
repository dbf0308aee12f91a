//! What a pool says of itself.
use std::fmt;

/// How a pool stands, all in numbers of objects or gets. The two kinds of pool count differently who waits.
#[derive(Clone, Copy, Debug, PartialEq, Eq)]
pub struct Status {
    /// How many objects the pool may have.
    pub max_size: usize,
    /// How many it has: idle, being prepared, or out.
    pub size: usize,
    /// Of a managed pool, how many more objects are idle than gets were polled and have none; 0 if there are fewer. Of
    /// an unmanaged pool, how many objects are idle.
    pub available: usize,
    /// Of a managed pool, how many more gets were polled and have no object than objects are idle; 0 if there are
    /// fewer. Of an unmanaged pool, how many gets are in the queue.
    pub waiting: usize,
}

impl fmt::Display for Status {
    ghost use Rattle.std.specs.Prelude.{Some};
    ghost use Rattle.deadpool_parts.specs.Texts.{status_text};

    ghost output = { λ status. Some (status_text status) };

    fn fmt<W: fmt::Write>(&self, f: &mut fmt::Formatter<W>) -> fmt::Result {
        let Status {
            max_size,
            size,
            available,
            waiting,
        } = *self;
        write!(
            f,
            "max_size {max_size}, size {size}, available {available}, waiting {waiting}",
        )
    }
}
