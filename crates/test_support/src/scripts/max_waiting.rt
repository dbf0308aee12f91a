//! Managed pools in which no more gets may wait than so many.

/// Gets that find a queue as long as may be, and what makes room in it.
pub const MAX_WAITING: &str = "\
# one-more-is-refused
pool 1 fifo none 0 most 1 => ok
start => party 0
poll 0 0 => object 0 value 0
start => party 1
poll 1 0 => pending
start => party 2
poll 2 0 => error Too many gets wait for a slot
back 0 => kept
start => party 3
poll 3 0 => pending
start => party 4
poll 4 0 => error Too many gets wait for a slot
poll 1 0 => object 0 value 0
poll 3 0 => pending

# cancelled-makes-room
pool 1 fifo none 0 most 1 => ok
start => party 0
poll 0 0 => object 0 value 0
start => party 1
poll 1 0 => pending
cancel 1 => cancelled
start => party 2
poll 2 0 => pending
start => party 3
poll 3 0 => error Too many gets wait for a slot

# nobody-may-wait
pool 1 fifo none 0 most 0 => ok
start => party 0
poll 0 0 => object 0 value 0
start 0 - - => party 1
poll 1 0 => error Timeout occurred while waiting for a slot to become available
start => party 2
poll 2 0 => error Too many gets wait for a slot
status => max 1 size 1 available 0 waiting 0
back 0 => kept
start => party 3
poll 3 0 => object 0 value 0
close => ok
start => party 4
poll 4 0 => error Pool has been closed

# resize-makes-room
pool 0 fifo none 0 most 1 => ok
start => party 0
poll 0 0 => pending
start => party 1
poll 1 0 => error Too many gets wait for a slot
resize 1 => ok
start => party 2
poll 2 0 => pending
poll 0 0 => object 0 value 0

# late-get-makes-room
pool 1 fifo clock 0 most 1 => ok
start => party 0
poll 0 0 => object 0 value 0
start 5 - - => party 1
poll 1 0 => pending
start 5 - - => party 2
poll 2 1 => error Too many gets wait for a slot
start 0 - - => party 3
poll 3 1 => error Timeout occurred while waiting for a slot to become available
poll 1 5 => error Timeout occurred while waiting for a slot to become available
start 5 - - => party 4
poll 4 5 => pending
poll 4 6 => pending

# no-bound
pool 1 fifo none 0 => ok
start => party 0
poll 0 0 => object 0 value 0
start => party 1
poll 1 0 => pending
start => party 2
poll 2 0 => pending
start => party 3
poll 3 0 => pending

# bound-beside-a-floor
pool 2 lifo none 0 1 most 1 => ok
start => party 0
poll 0 0 => object 0 value 0
start => party 1
poll 1 0 => object 1 value 1
start => party 2
poll 2 0 => pending
start => party 3
poll 3 0 => error Too many gets wait for a slot
back 0 => kept
poll 2 0 => object 0 value 0
back 0 => kept
back 1 => kept
retain => retained 1 removed 0

# greatest-bound
pool 1 fifo none 0 most 18446744073709551615 => ok
start => party 0
poll 0 0 => object 0 value 0
start => party 1
poll 1 0 => pending
start => party 2
poll 2 0 => pending
";
