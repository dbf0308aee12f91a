//! Why a get or an add was refused. The error's text is the `output` of its `Display`.
use std::fmt;

/// Why a get ended without an object, or an add with its object. It then holds nothing of the pool's, if each of its
/// polls was with the same core.
#[derive(Clone, Copy, Debug, PartialEq, Eq)]
pub enum PoolError {
    /// Nothing was free, and the wait is over.
    Timeout,
    /// The pool was closed, or has neither a handle nor an idle object left.
    Closed,
    /// A get was to wait for a while, and no runtime is there to tell when that is over.
    NoRuntimeSpecified,
    /// Nothing was free, and as many waited for it as may.
    Crowded,
    /// The entry in the queue found no memory.
    OutOfMemory,
}

impl fmt::Display for PoolError {
    ghost use Rattle.std.specs.Prelude.{Some};
    ghost use Rattle.deadpool_unmanaged.specs.Texts.{pool_error_text};

    ghost output = { λ error. Some (pool_error_text error) };

    fn fmt<W: fmt::Write>(&self, f: &mut fmt::Formatter<W>) -> fmt::Result {
        match self {
            PoolError::Timeout => {
                f.write_str("Timeout occurred while waiting for an object to become available")
            }
            PoolError::Closed => f.write_str("Pool has been closed"),
            PoolError::NoRuntimeSpecified => f.write_str("No runtime specified"),
            PoolError::Crowded => f.write_str("Too many wait already"),
            PoolError::OutOfMemory => f.write_str("Out of memory"),
        }
    }
}
