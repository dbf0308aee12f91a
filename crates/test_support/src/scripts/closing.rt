//! Pools that close while something is out. A line `drain` closes the pool and says what is left in it.

/// Managed pools that are drained at once, by a return, by a take, and by a get that ends.
pub const CLOSING: &str = "\
# drained-by-the-last-return
pool 2 fifo none 0 => ok
start => party 0
poll 0 0 => object 0 value 0
start => party 1
poll 1 0 => object 1 value 1
start => party 2
poll 2 0 => pending
drain => left 2
poll 2 0 => error Pool has been closed
back 0 => detached
drain => left 1
take 1 => taken 1
drain => drained
status => max 0 size 0 available 0 waiting 0

# drain-waits-for-a-creation
pool 1 fifo none 0 => ok
answer create pending ok => ok
start => party 0
poll 0 0 => pending
drain => left 1
status => max 0 size 0 available 0 waiting 1
poll 0 0 => object 0 value 0
drain => left 1
back 0 => detached
drain => drained
answer create pending refuse => ok
start => party 1
poll 1 0 => error Pool has been closed

# drain-waits-for-a-preparation
pool 1 lifo none 0 => ok
start => party 0
poll 0 0 => object 0 value 0
back 0 => kept
answer pre pending => ok
start => party 1
poll 1 0 => pending
drain => left 1
cancel 1 => cancelled
drain => drained

# granted-get-is-not-waited-for
pool 1 fifo none 0 => ok
start => party 0
poll 0 0 => object 0 value 0
start => party 1
poll 1 0 => pending
back 0 => kept
drain => drained
poll 1 0 => error Pool has been closed
drain => drained

# drained-at-once
pool 2 fifo none 0 => ok
start => party 0
poll 0 0 => object 0 value 0
back 0 => kept
drain => drained
resize 1 => ok
drain => drained
drop => ok
drain => no handle
";

/// Unmanaged pools that are drained by a return, by a take, and at once.
pub const CLOSING_UNMANAGED: &str = "\
# drained-by-the-last-return
unmanaged 2 none => ok
tryadd 7 => added 0
tryadd 8 => added 1
get => party 0
poll 0 0 => object 1 value 8
drain => left 1
tryadd 9 => error Pool has been closed value 9
back 1 => dropped
drain => drained
drop => ok
drain => no handle

# drained-by-the-last-take
unmanaged 2 none => ok
tryadd 7 => added 0
tryadd 8 => added 1
tryget => object 1 value 8
add 9 => party 0
poll 0 0 => pending
drain => left 1
take 1 => taken 8
poll 0 0 => error Pool has been closed value 9
drain => drained

# granted-get-is-not-waited-for
unmanaged 1 none => ok
tryadd 7 => added 0
tryget => object 0 value 7
get => party 0
poll 0 0 => pending
back 0 => kept
drain => drained
poll 0 0 => error Pool has been closed
drain => drained
";
