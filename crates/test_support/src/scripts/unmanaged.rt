//! Unmanaged pools.

/// Gets, adds and tries, objects and handles of unmanaged pools.
pub const UNMANAGED: &str = "\
# add-and-remove
unmanaged 2 none => ok
tryadd 1 => added 0
tryadd 2 => added 1
tryadd 3 => error Timeout occurred while waiting for an object to become available value 3
add 3 => party 0
poll 0 0 => pending
tryget => object 1 value 2
take 1 => taken 2
status => max 2 size 1 available 1 waiting 0
poll 0 0 => added 3
add 4 => party 1
poll 1 0 => pending
tryget => object 3 value 3
take 3 => taken 3
close => ok
poll 1 0 => error Pool has been closed value 4
status => max 2 size 0 available 0 waiting 0

# add-and-remove-sizes
unmanaged 2 none => ok
tryadd 1 => added 0
status => max 2 size 1 available 1 waiting 0
tryadd 2 => added 1
status => max 2 size 2 available 2 waiting 0
tryadd 3 => error Timeout occurred while waiting for an object to become available value 3
add 3 => party 0
poll 0 0 => pending
tryget => object 1 value 2
take 1 => taken 2
status => max 2 size 1 available 1 waiting 0
poll 0 0 => added 3
status => max 2 size 2 available 2 waiting 0
add 4 => party 1
poll 1 0 => pending
tryget => object 3 value 3
take 3 => taken 3
status => max 2 size 1 available 1 waiting 0
close => ok
status => max 2 size 0 available 0 waiting 0
poll 1 0 => error Pool has been closed value 4
status => max 2 size 0 available 0 waiting 0

# granted-get-is-not-passed
unmanaged 1 none => ok
get => party 0
poll 0 0 => pending
tryadd 7 => added 0
status => max 1 size 1 available 1 waiting 1
tryget => error Timeout occurred while waiting for an object to become available
drop => ok
poll 0 0 => error Pool has been closed
status => no handle

# no-runtime
unmanaged 2 none => ok
get 1000000 => party 0
poll 0 0 => error No runtime specified
get 0 => party 1
poll 1 0 => error Timeout occurred while waiting for an object to become available

# granted-add-is-not-passed
unmanaged 1 none => ok
tryadd 1 => added 0
add 2 => party 0
poll 0 0 => pending
tryget => object 0 value 1
take 0 => taken 1
tryadd 3 => error Timeout occurred while waiting for an object to become available value 3
poll 0 0 => added 1
status => max 1 size 1 available 1 waiting 0

# granted-object-of-a-cancelled-get
unmanaged 2 none => ok
get => party 0
poll 0 0 => pending
get => party 1
poll 1 0 => pending
status => max 2 size 0 available 0 waiting 2
tryadd 5 => added 0
cancel 0 => cancelled
poll 0 0 => no such
cancel 0 => no such
tryget => error Timeout occurred while waiting for an object to become available
poll 1 0 => object 0 value 5
poll 1 0 => pending
status => max 2 size 1 available 0 waiting 0

# granted-room-of-a-cancelled-add
unmanaged 1 none => ok
tryadd 1 => added 0
add 2 => party 0
poll 0 0 => pending
add 3 => party 1
poll 1 0 => pending
tryget => object 0 value 1
take 0 => taken 1
cancel 0 => cancelled
tryadd 4 => error Timeout occurred while waiting for an object to become available value 4
poll 1 0 => added 2
poll 1 0 => pending
tryget => object 2 value 3

# cancelled-parties-give-back
unmanaged 1 none => ok
get => party 0
get => party 1
poll 1 0 => pending
poll 0 0 => pending
tryadd 5 => added 0
cancel 1 => cancelled
cancel 1 => no such
tryget => error Timeout occurred while waiting for an object to become available
poll 0 0 => object 0 value 5
add 6 => party 2
add 7 => party 3
poll 2 0 => pending
poll 3 0 => pending
take 0 => taken 5
cancel 2 => cancelled
poll 3 0 => added 2
poll 3 0 => pending

# waits-with-a-runtime
unmanaged 2 clock => ok
get 1000000 => party 0
poll 0 0 => pending
poll 0 999999 => pending
poll 0 1000000 => error Timeout occurred while waiting for an object to become available
poll 0 1000000 => pending
get 1000000 => party 1
poll 1 5 => pending
poll 1 1000004 => pending
poll 1 1000005 => error Timeout occurred while waiting for an object to become available
get 0 => party 2
poll 2 0 => error Timeout occurred while waiting for an object to become available
get 18446744073709551615 => party 3
poll 3 340282366920938463463374607431768211455 => error Timeout occurred while waiting for an object to become available
status => max 2 size 0 available 0 waiting 0

# wait-ends-at-the-deadline
unmanaged 2 clock => ok
get 1000000 => party 0
poll 0 0 => pending
poll 0 999999 => pending
poll 0 1000000 => error Timeout occurred while waiting for an object to become available
poll 0 1000001 => pending

# waits-without-an-end
unmanaged 1 none => ok
get => party 0
get - => party 1
poll 0 0 => pending
poll 1 0 => pending
poll 0 340282366920938463463374607431768211455 => pending
poll 1 340282366920938463463374607431768211455 => pending
status => max 1 size 0 available 0 waiting 2
tryadd 9 => added 0
poll 1 0 => pending
poll 0 0 => object 0 value 9
back 0 => kept
poll 1 0 => object 0 value 9

# object-comes-before-the-deadline
unmanaged 1 clock => ok
get 10 => party 0
poll 0 0 => pending
tryadd 3 => added 0
poll 0 10 => object 0 value 3
get 10 => party 1
poll 1 20 => pending
poll 1 30 => error Timeout occurred while waiting for an object to become available
back 0 => kept
status => max 1 size 1 available 1 waiting 0

# last-in-first-out
unmanaged 2 none => ok
tryadd 1 => added 0
tryadd 2 => added 1
tryget => object 1 value 2
tryget => object 0 value 1
back 1 => kept
back 0 => kept
tryget => object 0 value 1

# last-to-come-goes-first
unmanaged 3 none => ok
tryadd 1 => added 0
tryadd 2 => added 1
add 3 => party 0
poll 0 0 => added 2
tryget => object 2 value 3
tryget => object 1 value 2
back 2 => kept
back 2 => no such
tryget => object 2 value 3
back 1 => kept
back 2 => kept
get => party 1
poll 1 0 => object 2 value 3
status => max 3 size 3 available 2 waiting 0

# granted-add-after-a-close
unmanaged 1 none => ok
tryadd 1 => added 0
add 2 => party 0
poll 0 0 => pending
tryget => object 0 value 1
take 0 => taken 1
close => ok
poll 0 0 => error Pool has been closed value 2
status => max 1 size 0 available 0 waiting 0

# granted-get-after-a-close
unmanaged 1 none => ok
get => party 0
poll 0 0 => pending
tryadd 5 => added 0
close => ok
status => max 1 size 0 available 0 waiting 1
poll 0 0 => error Pool has been closed
status => max 1 size 0 available 0 waiting 0

# closed-pool
unmanaged 2 none => ok
tryadd 1 => added 0
tryadd 2 => added 1
tryget => object 1 value 2
tryget => object 0 value 1
get => party 0
poll 0 0 => pending
add 3 => party 1
poll 1 0 => pending
add 4 => party 2
back 0 => kept
close => ok
status => max 2 size 1 available 0 waiting 1
poll 0 0 => error Pool has been closed
poll 1 0 => error Pool has been closed value 3
poll 2 0 => error Pool has been closed value 4
tryget => error Pool has been closed
tryadd 5 => error Pool has been closed value 5
get 0 => party 3
poll 3 0 => error Pool has been closed
status => max 2 size 1 available 0 waiting 0
back 1 => dropped
take 1 => no such
close => ok
status => max 2 size 0 available 0 waiting 0

# close-keeps-those-out
unmanaged 3 none => ok
tryadd 1 => added 0
tryadd 2 => added 1
tryget => object 1 value 2
close => ok
status => max 3 size 1 available 0 waiting 0
tryget => error Pool has been closed
tryadd 3 => error Pool has been closed value 3
back 1 => dropped
status => max 3 size 0 available 0 waiting 0
back 1 => no such

# taken-from-a-closed-pool
unmanaged 1 none => ok
tryadd 8 => added 0
tryget => object 0 value 8
close => ok
take 0 => taken 8
take 0 => no such
status => max 1 size 0 available 0 waiting 0

# handles
unmanaged 1 none => ok
tryadd 4 => added 0
tryget => object 0 value 4
clone => ok
drop => ok
upgrade => ok
drop => ok
status => max 1 size 1 available 0 waiting 0
drop => ok
drop => no handle
clone => no handle
upgrade => none
close => no handle
status => no handle
get => no handle
add 5 => no handle
tryget => no handle
tryadd 5 => no handle
back 0 => dropped
poll 0 0 => no such
cancel 0 => no such

# last-handle
unmanaged 1 none => ok
tryadd 1 => added 0
add 2 => party 0
poll 0 0 => pending
clone => ok
drop => ok
status => max 1 size 1 available 1 waiting 0
upgrade => ok
drop => ok
drop => ok
upgrade => none
tryadd 3 => no handle
poll 0 0 => added 1

# one-more-is-refused
unmanaged 1 none most 1 => ok
get => party 0
poll 0 0 => pending
get => party 1
poll 1 0 => error Too many wait already
tryget => error Timeout occurred while waiting for an object to become available
tryadd 1 => added 0
get => party 2
poll 2 0 => pending
add 2 => party 3
poll 3 0 => pending
add 3 => party 4
poll 4 0 => error Too many wait already value 3
tryadd 4 => error Timeout occurred while waiting for an object to become available value 4
poll 0 0 => object 0 value 1
close => ok
get => party 5
poll 5 0 => error Pool has been closed

# gets-and-adds-are-bounded-apart
unmanaged 0 none most 1 => ok
get => party 0
poll 0 0 => pending
add 1 => party 1
poll 1 0 => pending
get => party 2
poll 2 0 => error Too many wait already
add 2 => party 3
poll 3 0 => error Too many wait already value 2
cancel 0 => cancelled
add 3 => party 4
poll 4 0 => error Too many wait already value 3
get => party 5
poll 5 0 => pending
status => max 0 size 0 available 0 waiting 1

# nobody-may-wait
unmanaged 1 none most 0 => ok
get => party 0
poll 0 0 => error Too many wait already
get 0 => party 1
poll 1 0 => error Timeout occurred while waiting for an object to become available
add 1 => party 2
poll 2 0 => added 0
add 2 => party 3
poll 3 0 => error Too many wait already value 2
get => party 4
poll 4 0 => object 0 value 1

# no-room-in-a-pool-of-none
unmanaged 0 clock => ok
tryadd 1 => error Timeout occurred while waiting for an object to become available value 1
tryget => error Timeout occurred while waiting for an object to become available
add 2 => party 0
poll 0 0 => pending
status => max 0 size 0 available 0 waiting 0
close => ok
poll 0 0 => error Pool has been closed value 2

# greatest-numbers
unmanaged 001 clock => ok
tryadd 18446744073709551615 => added 0
get 18446744073709551615 => party 0
poll 000 340282366920938463463374607431768211455 => object 0 value 18446744073709551615
back 18446744073709551615 => no such
take 18446744073709551615 => no such
cancel 18446744073709551615 => no such
poll 18446744073709551615 0 => no such
take 00 => taken 18446744073709551615

# pool-after-a-refused-one
unmanaged 18446744073709551615 none => error Out of memory
pool 18446744073709551615 fifo none 0 => error Error occurred while building the pool: Out of memory
unmanaged 18446744073709551615 clock => error Out of memory
unmanaged 1 none => ok
tryadd 1 => added 0
";
