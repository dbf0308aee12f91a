//! The ends of the language: the greatest numbers, waits of zero, refused pools, answers and hooks.

/// The greatest and the longest numbers, waits of zero, values that are put, and a pool that is refused.
pub const LIMITS: &str = "\
# greatest-numbers
pool 1 fifo clock 0 => ok
start => party 0
poll 0 340282366920938463463374607431768211455 => object 0 value 0
put 0 18446744073709551615 => ok
back 0 => kept
answer recycle add => ok
start 0 18446744073709551615 18446744073709551615 => party 1
poll 1 0 => object 0 value 18446744073709551615
back 18446744073709551615 => no such
cancel 18446744073709551615 => no such

# leading-zeros
pool 001 lifo clock 00 => ok
start - 007 - => party 0
poll 000 00 => object 0 value 0
status => max 1 size 1 available 0 waiting 0

# wait-of-zero
pool 1 fifo none 0 => ok
start => party 0
poll 0 0 => object 0 value 0
start 0 - - => party 1
poll 1 0 => error Timeout occurred while waiting for a slot to become available
poll 1 0 => pending
cancel 1 => cancelled
status => max 1 size 1 available 0 waiting 0

# value-that-was-put
pool 1 fifo none 0 => ok
start => party 0
put 0 7 => no such
poll 0 0 => object 0 value 0
put 0 7 => ok
put 1 7 => no such
back 0 => kept
put 0 8 => no such
start => party 1
poll 1 0 => object 0 value 7

# pool-after-a-refused-one
pool 18446744073709551615 fifo none 0 => error Error occurred while building the pool: Out of memory
pool 18446744073709551615 lifo clock 7 => error Error occurred while building the pool: Out of memory
pool 1 fifo none 7 => ok
start => party 0
poll 0 0 => object 7 value 0

# hooks-in-each-list
pool 1 fifo none 0 => ok
answer postcreate pending add add => ok
start => party 0
poll 0 0 => pending
poll 0 0 => object 0 value 1
back 0 => kept
answer pre add pending => ok
answer post pending refuse => ok
start => party 1
poll 1 0 => pending
poll 1 0 => object 1 value 2
status => max 1 size 1 available 0 waiting 0
back 1 => kept
start => party 2
poll 2 0 => pending
poll 2 0 => object 1 value 2

# answers-join-those-that-are-left
pool 1 fifo none 0 => ok
answer create pending => ok
answer create refuse => ok
start => party 0
poll 0 0 => pending
poll 0 0 => error Error occurred while creating a new object: refused
";
