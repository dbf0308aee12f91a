//! Deadlines, and gets that are cancelled.

/// Timeouts, and gets that are cancelled.
pub const TIMEOUTS: &str = "\
# cancelled-at-each-pending-call
pool 1 fifo none 0 => ok
answer create pending => ok
start => party 0
poll 0 0 => pending
cancel 0 => cancelled
cancel 0 => no such
poll 0 0 => no such
status => max 1 size 0 available 0 waiting 0

# cancelled-while-granted
pool 1 fifo none 0 => ok
start => party 0
poll 0 0 => object 0 value 0
start => party 1
poll 1 0 => pending
start => party 2
poll 2 0 => pending
status => max 1 size 1 available 0 waiting 2
back 0 => kept
status => max 1 size 1 available 0 waiting 1
cancel 1 => cancelled
status => max 1 size 1 available 0 waiting 0
poll 2 0 => object 0 value 0
status => max 1 size 1 available 0 waiting 0

# cancelled-with-an-idle-object
pool 2 fifo none 0 => ok
start => party 0
poll 0 0 => object 0 value 0
start => party 1
poll 1 0 => object 1 value 1
back 0 => kept
answer recycle pending => ok
start => party 2
poll 2 0 => pending
start => party 3
poll 3 0 => pending
status => max 2 size 2 available 0 waiting 1
cancel 2 => cancelled
status => max 2 size 1 available 0 waiting 1
poll 3 0 => object 2 value 2

# creation-deadline-counts-from-its-beginning
pool 1 fifo clock 0 => ok
answer create pending refuse pending pending => ok
start => party 0
poll 0 0 => pending
start - 10 - => party 1
poll 1 3 => pending
poll 0 40 => error Error occurred while creating a new object: refused
poll 1 50 => pending
poll 1 59 => pending
answer create pending => ok
poll 1 60 => error Timeout occurred while creating a new object
status => max 1 size 0 available 0 waiting 0

# creation-timeout-of-zero
pool 16 fifo clock 0 => ok
answer create pending => ok
start 0 0 0 => party 0
poll 0 0 => error Timeout occurred while creating a new object
status => max 16 size 0 available 0 waiting 0

# deadline-at-the-last-moment
pool 1 fifo clock 0 => ok
start => party 0
poll 0 0 => object 0 value 0
start 18446744073709551615 - - => party 1
poll 1 340282366920938463463374607431768211455 => error Timeout occurred while waiting for a slot to become available

# granted-before-the-clock-is-asked
pool 1 fifo clock 0 => ok
start => party 0
poll 0 0 => object 0 value 0
start 10 - - => party 1
poll 1 0 => pending
back 0 => kept
poll 1 10 => object 0 value 0

# recycling-deadline-counts-from-its-beginning
pool 1 fifo clock 0 => ok
start => party 0
poll 0 0 => object 0 value 0
back 0 => kept
answer pre pending => ok
answer recycle pending pending pending => ok
start - - 10 => party 1
poll 1 5 => pending
poll 1 20 => pending
poll 1 29 => pending
poll 1 30 => object 1 value 1
status => max 1 size 1 available 0 waiting 0

# recycling-ends-at-its-deadline
pool 1 fifo clock 0 => ok
start => party 0
poll 0 0 => object 0 value 0
back 0 => kept
answer recycle pending pending pending => ok
start - - 10 => party 1
poll 1 5 => pending
poll 1 14 => pending
poll 1 15 => object 1 value 1

# recycling-ready-at-its-deadline
pool 1 fifo clock 0 => ok
start => party 0
poll 0 0 => object 0 value 0
back 0 => kept
answer recycle pending pending => ok
start - - 10 => party 1
poll 1 5 => pending
poll 1 14 => pending
poll 1 15 => object 0 value 0

# timeouts-without-a-runtime
pool 1 fifo none 0 => ok
start 5 - - => party 0
poll 0 0 => error No runtime specified
start - 5 - => party 1
poll 1 0 => error No runtime specified
status => max 1 size 0 available 0 waiting 0
start - - 5 => party 2
poll 2 0 => object 0 value 0
back 0 => kept
start - - 5 => party 3
poll 3 0 => object 1 value 1

# wait-ends-at-its-deadline
pool 1 fifo clock 0 => ok
start => party 0
poll 0 0 => object 0 value 0
start 10 - - => party 1
poll 1 0 => pending
poll 1 9 => pending
poll 1 10 => error Timeout occurred while waiting for a slot to become available
status => max 1 size 1 available 0 waiting 0

# recycling-ready-after-a-pending-hook
pool 1 fifo clock 0 => ok
start => party 0
poll 0 0 => object 0 value 0
back 0 => kept
answer pre pending => ok
answer recycle pending => ok
start - - 10 => party 1
poll 1 5 => pending
poll 1 20 => pending
poll 1 29 => object 0 value 0
status => max 1 size 1 available 0 waiting 0

# hooks-have-no-deadline
pool 1 fifo clock 0 => ok
start => party 0
poll 0 0 => object 0 value 0
back 0 => kept
answer pre pending pending => ok
answer post pending pending => ok
start - - 10 => party 1
poll 1 5 => pending
poll 1 20 => pending
poll 1 40 => pending
poll 1 60 => pending
poll 1 80 => object 0 value 0

# close-before-the-clock-is-asked
pool 1 fifo clock 0 => ok
start => party 0
poll 0 0 => object 0 value 0
start 10 - - => party 1
poll 1 0 => pending
back 0 => kept
close => ok
poll 1 10 => error Pool has been closed
status => max 0 size 0 available 0 waiting 0
";
