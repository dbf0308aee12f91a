//! Gets that find a place or wait for one, and returns.

/// Gets that create, wait and come back.
pub const FIRST_PATH: &str = "\
# first-run
pool 1 fifo none 0 => ok
start => party 0
poll 0 0 => object 0 value 0
status => max 1 size 1 available 0 waiting 0
back 0 => kept
status => max 1 size 1 available 1 waiting 0

# lifo-and-a-waiter
pool 1 lifo none 5 => ok
start => party 0
poll 0 0 => object 5 value 0
start => party 1
poll 1 0 => pending
status => max 1 size 1 available 0 waiting 1
back 0 => no such
back 5 => kept
status => max 1 size 1 available 0 waiting 0
start => party 2
poll 2 0 => pending
poll 1 0 => object 5 value 0
poll 0 0 => pending
poll 9 0 => no such

# numbers-exhausted
pool 2 fifo none 18446744073709551614 => ok
start => party 0
poll 0 0 => object 18446744073709551614 value 0
start => party 1
poll 1 0 => error Object numbers are exhausted
status => max 2 size 1 available 0 waiting 0

# three-gets-and-returns
pool 16 fifo none 0 => ok
status => max 16 size 0 available 0 waiting 0
start => party 0
poll 0 0 => object 0 value 0
status => max 16 size 1 available 0 waiting 0
start => party 1
poll 1 0 => object 1 value 1
status => max 16 size 2 available 0 waiting 0
start => party 2
poll 2 0 => object 2 value 2
status => max 16 size 3 available 0 waiting 0
back 0 => kept
status => max 16 size 3 available 1 waiting 0
back 1 => kept
status => max 16 size 3 available 2 waiting 0
back 2 => kept
status => max 16 size 3 available 3 waiting 0
";
