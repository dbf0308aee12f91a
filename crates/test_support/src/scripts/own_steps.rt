//! The owner's steps: take, resize, retain, close, and the count of handles.

/// A limit that changes, a close, objects that are taken or not kept, and handles.
pub const OWN_STEPS: &str = "\
# clone-and-two-drops
pool 1 fifo none 0 => ok
start => party 0
poll 0 0 => object 0 value 0
back 0 => kept
clone => ok
drop => ok
status => max 1 size 1 available 1 waiting 0
upgrade => ok
drop => ok
status => max 1 size 1 available 1 waiting 0
drop => ok
status => no handle
upgrade => none

# close
pool 1 fifo none 0 => ok
start => party 0
poll 0 0 => object 0 value 0
start => party 1
poll 1 0 => pending
close => ok
status => max 0 size 1 available 0 waiting 1
poll 1 0 => error Pool has been closed
status => max 0 size 1 available 0 waiting 0
start => party 2
poll 2 0 => error Pool has been closed
back 0 => detached
status => max 0 size 0 available 0 waiting 0
resize 16 => ok
status => max 0 size 0 available 0 waiting 0

# going-over-a-close
pool 3 fifo none 0 => ok
start => party 0
poll 0 0 => object 0 value 0
start => party 1
poll 1 0 => object 1 value 1
start => party 2
poll 2 0 => object 2 value 2
back 0 => kept
answer recycle refuse => ok
start => party 3
advance 3 0 => more
advance 3 0 => more
status => max 3 size 2 available 0 waiting 1
back 1 => kept
advance 3 0 => pending
close => ok
status => max 0 size 1 available 0 waiting 1
poll 3 0 => object 3 value 3
status => max 0 size 2 available 0 waiting 0
back 3 => detached
back 2 => detached
status => max 0 size 0 available 0 waiting 0

# going-over-a-close-status
pool 3 fifo none 0 => ok
start => party 0
poll 0 0 => object 0 value 0
start => party 1
poll 1 0 => object 1 value 1
start => party 2
poll 2 0 => object 2 value 2
back 0 => kept
answer recycle refuse => ok
start => party 3
advance 3 0 => more
advance 3 0 => more
back 1 => kept
advance 3 0 => pending
close => ok
status => max 0 size 1 available 0 waiting 1
poll 3 0 => object 3 value 3
status => max 0 size 2 available 0 waiting 0
back 3 => detached
status => max 0 size 1 available 0 waiting 0
back 2 => detached
status => max 0 size 0 available 0 waiting 0

# granted-get-after-a-close
pool 1 fifo none 0 => ok
start => party 0
poll 0 0 => object 0 value 0
start => party 1
poll 1 0 => pending
back 0 => kept
status => max 1 size 1 available 0 waiting 0
close => ok
poll 1 0 => error Pool has been closed
status => max 0 size 0 available 0 waiting 0

# grow-shrink-grow
pool 1 fifo none 0 => ok
start => party 0
poll 0 0 => object 0 value 0
resize 2 => ok
resize 0 => ok
resize 5 => ok
status => max 5 size 1 available 0 waiting 0
back 0 => kept
status => max 5 size 1 available 1 waiting 0

# growth-grants-a-waiter
pool 0 fifo none 0 => ok
start => party 0
poll 0 0 => pending
status => max 0 size 0 available 0 waiting 1
resize 1 => ok
status => max 1 size 0 available 0 waiting 1
poll 0 0 => object 0 value 0
status => max 1 size 1 available 0 waiting 0
back 0 => kept
status => max 1 size 1 available 1 waiting 0

# growth-grants-the-first-in-order
pool 1 fifo none 0 => ok
start => party 0
poll 0 0 => object 0 value 0
start => party 1
poll 1 0 => pending
start => party 2
poll 2 0 => pending
start => party 3
poll 3 0 => pending
resize 3 => ok
poll 3 0 => pending
poll 1 0 => object 1 value 1
poll 2 0 => object 2 value 2
status => max 3 size 3 available 0 waiting 1

# last-handle-dropped
pool 1 fifo none 0 => ok
start => party 0
poll 0 0 => object 0 value 0
drop => ok
upgrade => none
back 0 => dropped
status => no handle

# put-is-seen-by-take
pool 1 fifo none 0 => ok
start => party 0
poll 0 0 => object 0 value 0
put 0 9 => ok
put 4 1 => no such
take 0 => taken 9
status => max 1 size 0 available 0 waiting 0

# resize-within-size-and-back
pool 10 fifo none 0 => ok
resize 5 => ok
resize 10 => ok
start 0 - - => party 0
poll 0 0 => object 0 value 0
start 0 - - => party 1
poll 1 0 => object 1 value 1
start 0 - - => party 2
poll 2 0 => object 2 value 2
start 0 - - => party 3
poll 3 0 => object 3 value 3
start 0 - - => party 4
poll 4 0 => object 4 value 4
start 0 - - => party 5
poll 5 0 => object 5 value 5
start 0 - - => party 6
poll 6 0 => object 6 value 6
start 0 - - => party 7
poll 7 0 => object 7 value 7
start 0 - - => party 8
poll 8 0 => object 8 value 8
start 0 - - => party 9
poll 9 0 => object 9 value 9
start 0 - - => party 10
poll 10 0 => error Timeout occurred while waiting for a slot to become available

# retain
pool 4 lifo none 0 => ok
start => party 0
poll 0 0 => object 0 value 0
start => party 1
poll 1 0 => object 1 value 1
start => party 2
poll 2 0 => object 2 value 2
start => party 3
poll 3 0 => object 3 value 3
back 0 => kept
back 1 => kept
back 2 => kept
back 3 => kept
retain 1 3 => retained 2 removed 0 2
status => max 4 size 2 available 2 waiting 0
start => party 4
poll 4 0 => object 3 value 3
resize 1 => ok
status => max 1 size 1 available 0 waiting 0

# shrink-and-grow-with-objects-out
pool 2 fifo none 0 => ok
start => party 0
poll 0 0 => object 0 value 0
start => party 1
poll 1 0 => object 1 value 1
status => max 2 size 2 available 0 waiting 0
resize 0 => ok
status => max 0 size 2 available 0 waiting 0
resize 1 => ok
status => max 1 size 2 available 0 waiting 0
back 0 => detached
status => max 1 size 1 available 0 waiting 0
back 1 => kept
status => max 1 size 1 available 1 waiting 0

# shrink-drops-the-oldest
pool 3 lifo none 0 => ok
start => party 0
poll 0 0 => object 0 value 0
start => party 1
poll 1 0 => object 1 value 1
start => party 2
poll 2 0 => object 2 value 2
back 1 => kept
back 0 => kept
back 2 => kept
resize 1 => ok
status => max 1 size 1 available 1 waiting 0
start => party 3
poll 3 0 => object 2 value 2

# shrink-leaves-no-place-over
pool 2 fifo none 0 => ok
resize 1 => ok
start 0 - - => party 0
poll 0 0 => object 0 value 0
start 0 - - => party 1
poll 1 0 => error Timeout occurred while waiting for a slot to become available

# shrink-to-zero-and-grow
pool 1 fifo none 0 => ok
start => party 0
poll 0 0 => object 0 value 0
resize 0 => ok
resize 1 => ok
start 0 - - => party 1
poll 1 0 => error Timeout occurred while waiting for a slot to become available
status => max 1 size 1 available 0 waiting 0

# shrink-under-a-granted-get
pool 2 fifo none 0 => ok
start => party 0
poll 0 0 => object 0 value 0
start => party 1
poll 1 0 => object 1 value 1
start => party 2
poll 2 0 => pending
start => party 3
poll 3 0 => pending
back 0 => kept
status => max 2 size 2 available 0 waiting 1
resize 0 => ok
status => max 0 size 1 available 0 waiting 2
resize 2 => ok
poll 3 0 => pending
poll 2 0 => object 2 value 2
status => max 2 size 2 available 0 waiting 1

# take
pool 2 fifo none 0 => ok
start => party 0
poll 0 0 => object 0 value 0
start => party 1
poll 1 0 => object 1 value 1
status => max 2 size 2 available 0 waiting 0
take 0 => taken 0
status => max 2 size 1 available 0 waiting 0
take 1 => taken 1
status => max 2 size 0 available 0 waiting 0
start => party 2
poll 2 0 => object 2 value 2
start => party 3
poll 3 0 => object 3 value 3
status => max 2 size 2 available 0 waiting 0
back 2 => kept
back 3 => kept
status => max 2 size 2 available 2 waiting 0

# growth-grants-two-of-three
pool 1 lifo none 0 => ok
start => party 0
poll 0 0 => object 0 value 0
start => party 1
poll 1 0 => pending
start => party 2
poll 2 0 => pending
start => party 3
poll 3 0 => pending
status => max 1 size 1 available 0 waiting 3
resize 3 => ok
status => max 3 size 1 available 0 waiting 3
poll 3 0 => pending
poll 2 0 => object 1 value 1
status => max 3 size 2 available 0 waiting 2
poll 1 0 => object 2 value 2
status => max 3 size 3 available 0 waiting 1
back 0 => kept
poll 3 0 => object 0 value 0

# growth-from-nothing-grants-in-order
pool 0 fifo none 0 => ok
start => party 0
poll 0 0 => pending
start => party 1
poll 1 0 => pending
start => party 2
poll 2 0 => pending
resize 2 => ok
status => max 2 size 0 available 0 waiting 3
poll 2 0 => pending
cancel 0 => cancelled
status => max 2 size 0 available 0 waiting 2
poll 2 0 => object 0 value 0
poll 1 0 => object 1 value 1
status => max 2 size 2 available 0 waiting 0

# get-granted-by-a-growth-after-a-close
pool 0 fifo none 0 => ok
start => party 0
poll 0 0 => pending
resize 1 => ok
status => max 1 size 0 available 0 waiting 1
close => ok
status => max 0 size 0 available 0 waiting 1
poll 0 0 => error Pool has been closed
status => max 0 size 0 available 0 waiting 0
poll 0 0 => pending

# shrink-drops-the-front-where-the-first-is-next
pool 3 fifo none 0 => ok
start => party 0
poll 0 0 => object 0 value 0
start => party 1
poll 1 0 => object 1 value 1
start => party 2
poll 2 0 => object 2 value 2
back 1 => kept
back 0 => kept
back 2 => kept
resize 2 => ok
status => max 2 size 2 available 2 waiting 0
start => party 3
poll 3 0 => object 0 value 0
start => party 4
poll 4 0 => object 2 value 2
status => max 2 size 2 available 0 waiting 0

# shrink-drops-the-front-where-the-last-is-next
pool 3 lifo none 0 => ok
start => party 0
poll 0 0 => object 0 value 0
start => party 1
poll 1 0 => object 1 value 1
start => party 2
poll 2 0 => object 2 value 2
back 1 => kept
back 0 => kept
back 2 => kept
resize 2 => ok
status => max 2 size 2 available 2 waiting 0
start => party 3
poll 3 0 => object 2 value 2
start => party 4
poll 4 0 => object 0 value 0
status => max 2 size 2 available 0 waiting 0

# take-after-a-shrink-leaves-no-place-over
pool 2 fifo none 0 => ok
start => party 0
poll 0 0 => object 0 value 0
answer create pending => ok
start => party 1
poll 1 0 => pending
resize 1 => ok
take 0 => taken 0
start => party 2
poll 2 0 => pending
status => max 1 size 0 available 0 waiting 2

# cancel-after-a-shrink-leaves-no-place-over
pool 1 fifo none 0 => ok
answer create pending => ok
start => party 0
poll 0 0 => pending
resize 0 => ok
cancel 0 => cancelled
start 0 - - => party 1
poll 1 0 => error Timeout occurred while waiting for a slot to become available
status => max 0 size 0 available 0 waiting 0

# return-after-a-shrink-leaves-no-place-over
pool 2 fifo none 0 => ok
start => party 0
poll 0 0 => object 0 value 0
answer create pending => ok
start => party 1
poll 1 0 => pending
resize 1 => ok
back 0 => kept
start 0 - - => party 2
poll 2 0 => error Timeout occurred while waiting for a slot to become available
status => max 1 size 1 available 0 waiting 0

# shrink-below-the-idle-leaves-no-place-over
pool 2 fifo none 0 => ok
start => party 0
poll 0 0 => object 0 value 0
back 0 => kept
resize 0 => ok
start 0 - - => party 1
poll 1 0 => error Timeout occurred while waiting for a slot to become available
status => max 0 size 0 available 0 waiting 0

# refused-growth-and-empty-retain
pool 2 fifo none 0 => ok
resize 18446744073709551615 => out of memory
status => max 2 size 0 available 0 waiting 0
retain => retained 0 removed
start => party 0
poll 0 0 => object 0 value 0
start => party 1
poll 1 0 => object 1 value 1
back 0 => kept
back 1 => kept
retain => retained 0 removed 0 1
status => max 2 size 0 available 0 waiting 0
";
