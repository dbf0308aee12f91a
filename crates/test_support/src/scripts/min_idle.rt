//! Pools that keep a least number of objects idle.

/// Shrinks, retains and a last handle over pools with a floor.
pub const MIN_IDLE: &str = "\
# floor-under-shrink-and-retain
pool 4 fifo none 0 2 => ok
start => party 0
poll 0 0 => object 0 value 0
start => party 1
poll 1 0 => object 1 value 1
start => party 2
poll 2 0 => object 2 value 2
start => party 3
poll 3 0 => object 3 value 3
back 0 => kept
back 1 => kept
resize 2 => ok
status => max 2 size 4 available 2 waiting 0
start 0 - - => party 4
poll 4 0 => error Timeout occurred while waiting for a slot to become available
back 2 => detached
back 3 => detached
status => max 2 size 2 available 2 waiting 0
retain => retained 2 removed
resize 1 => ok
status => max 1 size 1 available 1 waiting 0
close => ok
status => max 0 size 0 available 0 waiting 0

# retain-keeps-the-floor
pool 3 fifo none 0 1 => ok
start => party 0
poll 0 0 => object 0 value 0
start => party 1
poll 1 0 => object 1 value 1
start => party 2
poll 2 0 => object 2 value 2
back 0 => kept
back 1 => kept
back 2 => kept
retain => retained 1 removed 0 1

# floor-above-the-limit
pool 2 fifo none 0 5 => ok
start => party 0
poll 0 0 => object 0 value 0
start => party 1
poll 1 0 => object 1 value 1
back 0 => kept
back 1 => kept
retain => retained 2 removed
resize 1 => ok
status => max 1 size 1 available 1 waiting 0
start => party 2
poll 2 0 => object 1 value 1
back 1 => kept
resize 3 => ok
status => max 3 size 1 available 1 waiting 0
close => ok
status => max 0 size 0 available 0 waiting 0

# floor-above-a-smaller-limit
pool 4 fifo none 0 3 => ok
start => party 0
poll 0 0 => object 0 value 0
start => party 1
poll 1 0 => object 1 value 1
start => party 2
poll 2 0 => object 2 value 2
start => party 3
poll 3 0 => object 3 value 3
back 0 => kept
back 1 => kept
back 2 => kept
back 3 => kept
resize 2 => ok
status => max 2 size 2 available 2 waiting 0
start => party 4
poll 4 0 => object 2 value 2

# floor-beside-objects-in-use
pool 4 fifo none 0 1 => ok
start => party 0
poll 0 0 => object 0 value 0
start => party 1
poll 1 0 => object 1 value 1
start => party 2
poll 2 0 => object 2 value 2
start => party 3
poll 3 0 => object 3 value 3
back 0 => kept
back 1 => kept
back 2 => kept
answer recycle pending => ok
start => party 4
poll 4 0 => pending
resize 1 => ok
status => max 1 size 3 available 1 waiting 0
back 3 => detached
status => max 1 size 2 available 1 waiting 0
poll 4 0 => object 0 value 0
back 0 => detached
status => max 1 size 1 available 1 waiting 0
start => party 5
poll 5 0 => object 2 value 2

# retain-rejects-all-of-five
pool 5 fifo none 0 2 => ok
start => party 0
poll 0 0 => object 0 value 0
start => party 1
poll 1 0 => object 1 value 1
start => party 2
poll 2 0 => object 2 value 2
start => party 3
poll 3 0 => object 3 value 3
start => party 4
poll 4 0 => object 4 value 4
back 0 => kept
back 1 => kept
back 2 => kept
back 3 => kept
back 4 => kept
retain => retained 2 removed 0 1 2
status => max 5 size 2 available 2 waiting 0
start => party 5
poll 5 0 => object 3 value 3

# retain-keeps-one-and-the-floor
pool 5 fifo none 0 2 => ok
start => party 0
poll 0 0 => object 0 value 0
start => party 1
poll 1 0 => object 1 value 1
start => party 2
poll 2 0 => object 2 value 2
start => party 3
poll 3 0 => object 3 value 3
start => party 4
poll 4 0 => object 4 value 4
back 0 => kept
back 1 => kept
back 2 => kept
back 3 => kept
back 4 => kept
retain 0 => retained 2 removed 1 2 3
start => party 5
poll 5 0 => object 0 value 0
start => party 6
poll 6 0 => object 4 value 4

# retain-spares-before-it-keeps
pool 5 fifo none 0 2 => ok
start => party 0
poll 0 0 => object 0 value 0
start => party 1
poll 1 0 => object 1 value 1
start => party 2
poll 2 0 => object 2 value 2
start => party 3
poll 3 0 => object 3 value 3
start => party 4
poll 4 0 => object 4 value 4
back 0 => kept
back 1 => kept
back 2 => kept
back 3 => kept
back 4 => kept
retain 4 => retained 2 removed 0 1 2

# growth-after-a-stopped-shrink
pool 4 fifo none 0 2 => ok
start => party 0
poll 0 0 => object 0 value 0
start => party 1
poll 1 0 => object 1 value 1
start => party 2
poll 2 0 => object 2 value 2
start => party 3
poll 3 0 => object 3 value 3
back 0 => kept
back 1 => kept
resize 2 => ok
start => party 4
poll 4 0 => pending
status => max 2 size 4 available 1 waiting 0
resize 4 => ok
status => max 4 size 4 available 1 waiting 0
start => party 5
poll 5 0 => object 0 value 0
poll 4 0 => object 1 value 1
start => party 6
poll 6 0 => pending
status => max 4 size 4 available 0 waiting 1

# shrink-stopped-half-way
pool 4 fifo none 0 1 => ok
start => party 0
poll 0 0 => object 0 value 0
start => party 1
poll 1 0 => object 1 value 1
start => party 2
poll 2 0 => object 2 value 2
start => party 3
poll 3 0 => object 3 value 3
back 0 => kept
back 1 => kept
resize 2 => ok
status => max 2 size 3 available 1 waiting 0
back 2 => detached
back 3 => kept
status => max 2 size 2 available 2 waiting 0
resize 1 => ok
status => max 1 size 1 available 1 waiting 0

# last-handle-keeps-no-floor
pool 2 fifo none 0 2 => ok
start => party 0
poll 0 0 => object 0 value 0
start => party 1
poll 1 0 => object 1 value 1
back 0 => kept
drop => ok
back 1 => dropped
status => no handle
upgrade => none

# floor-of-zero
pool 1 fifo none 0 0 => ok
start => party 0
poll 0 0 => object 0 value 0
back 0 => kept
retain => retained 0 removed 0

# greatest-floor
pool 1 lifo clock 7 18446744073709551615 => ok
start => party 0
poll 0 0 => object 7 value 0
back 7 => kept
retain => retained 1 removed

# floor-with-leading-zeros
pool 2 fifo none 0 001 => ok
start => party 0
poll 0 0 => object 0 value 0
start => party 1
poll 1 0 => object 1 value 1
back 0 => kept
back 1 => kept
retain => retained 1 removed 0
";
