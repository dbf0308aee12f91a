//! Gets that are cancelled, whose place one in the queue is then given.

/// A get that is cancelled in each of its stages.
pub const CANCELLED: &str = "\
# cancelled-while-queued
pool 1 fifo none 0 => ok
start => party 0
poll 0 0 => object 0 value 0
start => party 1
poll 1 0 => pending
start => party 2
poll 2 0 => pending
status => max 1 size 1 available 0 waiting 2
cancel 1 => cancelled
status => max 1 size 1 available 0 waiting 1
back 0 => kept
status => max 1 size 1 available 0 waiting 0
poll 1 0 => no such
poll 2 0 => object 0 value 0
status => max 1 size 1 available 0 waiting 0

# cancelled-while-granted-again
pool 1 fifo none 0 => ok
start => party 0
poll 0 0 => object 0 value 0
start => party 1
poll 1 0 => pending
start => party 2
poll 2 0 => pending
back 0 => kept
poll 2 0 => pending
cancel 1 => cancelled
status => max 1 size 1 available 0 waiting 0
poll 2 0 => object 0 value 0
status => max 1 size 1 available 0 waiting 0

# cancelled-while-going
pool 2 fifo none 0 => ok
start => party 0
poll 0 0 => object 0 value 0
start => party 1
poll 1 0 => object 1 value 1
back 0 => kept
answer recycle refuse => ok
start => party 2
advance 2 0 => more
advance 2 0 => more
start => party 3
poll 3 0 => pending
status => max 2 size 1 available 0 waiting 2
cancel 2 => cancelled
status => max 2 size 1 available 0 waiting 1
poll 3 0 => object 2 value 2
status => max 2 size 2 available 0 waiting 0

# cancelled-while-creating
pool 1 fifo none 0 => ok
answer create pending => ok
start => party 0
poll 0 0 => pending
start => party 1
poll 1 0 => pending
status => max 1 size 0 available 0 waiting 2
cancel 0 => cancelled
status => max 1 size 0 available 0 waiting 1
poll 1 0 => object 0 value 0
status => max 1 size 1 available 0 waiting 0

# cancelled-with-an-idle-object-again
pool 1 fifo none 0 => ok
start => party 0
poll 0 0 => object 0 value 0
back 0 => kept
answer post pending => ok
start => party 1
poll 1 0 => pending
status => max 1 size 1 available 0 waiting 0
start => party 2
poll 2 0 => pending
status => max 1 size 1 available 0 waiting 1
cancel 1 => cancelled
status => max 1 size 0 available 0 waiting 1
poll 2 0 => object 1 value 1
status => max 1 size 1 available 0 waiting 0

# cancelled-with-a-new-object
pool 1 fifo none 0 => ok
answer postcreate pending => ok
start => party 0
poll 0 0 => pending
status => max 1 size 1 available 0 waiting 0
start => party 1
poll 1 0 => pending
status => max 1 size 1 available 0 waiting 1
cancel 0 => cancelled
status => max 1 size 0 available 0 waiting 1
poll 1 0 => object 1 value 1
status => max 1 size 1 available 0 waiting 0
";
