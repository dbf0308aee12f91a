//! Pools that are asked how often each thing has happened, by a line `tally`.

/// Managed pools whose gets are served, wait, are late or refused, and whose objects go for each cause.
pub const TALLIES: &str = "\
# each-get-is-counted
pool 1 fifo clock 0 => ok
tally => nothing
start => party 0
poll 0 0 => object 0 value 0
start => party 1
poll 1 0 => pending
start 0 - - => party 2
poll 2 1 => error Timeout occurred while waiting for a slot to become available
tally => gets 3 served 1 waited 1 late 1 created 1
back 0 => kept
poll 1 2 => object 0 value 0
tally => gets 3 served 2 waited 1 late 1 created 1
answer recycle refuse => ok
back 0 => kept
start => party 3
poll 3 3 => object 1 value 1
tally => gets 4 served 3 waited 1 late 1 created 2 refused 1
drain => left 1
back 1 => detached
drain => drained
start => party 4
poll 4 4 => error Pool has been closed
tally => gets 5 served 3 waited 1 late 1 closed 1 created 2 refused 1 surplus 1

# late-and-closed-after-a-wait
pool 1 fifo clock 0 most 1 => ok
start => party 0
poll 0 0 => object 0 value 0
start 5 - - => party 1
poll 1 0 => pending
start => party 2
poll 2 1 => error Too many gets wait for a slot
tally => gets 3 served 1 waited 1 crowded 1 created 1
poll 1 5 => error Timeout occurred while waiting for a slot to become available
tally => gets 3 served 1 waited 1 late 1 crowded 1 created 1
start => party 3
poll 3 6 => pending
back 0 => kept
close => ok
poll 3 7 => error Pool has been closed
tally => gets 4 served 1 waited 2 late 1 crowded 1 closed 1 created 1 surplus 1

# each-object-that-goes-has-its-cause
pool 3 fifo none 0 => ok
answer create refuse => ok
start => party 0
poll 0 0 => error Error occurred while creating a new object: refused
start => party 1
poll 1 0 => object 0 value 0
start => party 2
poll 2 0 => object 1 value 1
start => party 3
poll 3 0 => object 2 value 2
tally => gets 4 served 4 created 3 failed 1
take 0 => taken 0
back 1 => kept
answer recycle pending => ok
start => party 4
poll 4 0 => pending
cancel 4 => cancelled
tally => gets 5 served 5 created 3 failed 1 cancelled 1 taken 1
start => party 5
poll 5 0 => object 3 value 3
back 3 => kept
back 2 => kept
resize 1 => ok
tally => gets 6 served 6 created 4 failed 1 cancelled 1 surplus 1 taken 1
retain => retained 0 removed 2
tally => gets 6 served 6 created 4 failed 1 cancelled 1 surplus 1 not_retained 1 taken 1
drop => ok
tally => no handle
";

/// Unmanaged pools whose gets and adds are served, wait, are late or refused, and whose objects are taken or dropped.
pub const TALLIES_UNMANAGED: &str = "\
# each-get-and-each-add-is-counted
unmanaged 1 clock most 1 => ok
tally => nothing
get 5 => party 0
poll 0 0 => pending
get 0 => party 1
poll 1 0 => error Timeout occurred while waiting for an object to become available
get => party 2
poll 2 0 => error Too many wait already
tally => gets 3 waited 1 late 1 crowded 1
poll 0 5 => error Timeout occurred while waiting for an object to become available
tryadd 1 => added 0
tally => gets 3 waited 1 late 2 crowded 1 adds 1 stored 1
tryadd 2 => error Timeout occurred while waiting for an object to become available value 2
add 3 => party 3
poll 3 6 => pending
add 4 => party 4
poll 4 6 => error Too many wait already value 4
tally => gets 3 waited 1 late 2 crowded 1 adds 4 stored 1 adds_waited 1 adds_full 1 adds_crowded 1
tryget => object 0 value 1
get => party 5
poll 5 6 => pending
back 0 => kept
poll 5 7 => object 0 value 1
tally => gets 5 served 2 waited 2 late 2 crowded 1 adds 4 stored 1 adds_waited 1 adds_full 1 adds_crowded 1
take 0 => taken 1
poll 3 8 => added 2
tally => gets 5 served 2 waited 2 late 2 crowded 1 adds 4 stored 2 adds_waited 1 adds_full 1 adds_crowded 1 taken 1
drop => ok
tally => no handle

# each-object-that-a-close-drops-is-counted
unmanaged 2 none => ok
tryadd 1 => added 0
tryadd 2 => added 1
tryget => object 1 value 2
close => ok
tally => gets 1 served 1 adds 2 stored 2 dropped 1
back 1 => dropped
tryget => error Pool has been closed
tryadd 3 => error Pool has been closed value 3
tally => gets 2 served 1 closed 1 adds 3 stored 2 adds_closed 1 dropped 2
";
