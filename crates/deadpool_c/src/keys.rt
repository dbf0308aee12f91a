//! Keys that are written for the caller.
ghost use Rattle.deadpool_c.specs.Keys.{Writes};

/// Writes the first of these keys to the front of `to`, as far as it reaches.
pub fn copy_keys(from: &[u64], to: &mut [u64])
    ensures { Writes from.now to.old to.new }
{
    let count = from.len().min(to.len());
    to[..count].copy_from_slice(&from[..count]);
}
