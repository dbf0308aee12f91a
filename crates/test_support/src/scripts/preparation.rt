//! What an object passes before it is handed out, and creations that end badly.

/// Managers and hooks that are pending, refuse or change an object.
pub const PREPARATION: &str = "\
# allowance-used-up
pool 3 fifo none 0 => ok
start => party 0
poll 0 0 => object 0 value 0
start => party 1
poll 1 0 => object 1 value 1
start => party 2
poll 2 0 => object 2 value 2
back 0 => kept
answer recycle refuse => ok
start => party 3
advance 3 0 => more
advance 3 0 => more
status => max 3 size 2 available 0 waiting 1
back 1 => kept
status => max 3 size 2 available 0 waiting 0
advance 3 0 => pending
back 2 => kept
status => max 3 size 2 available 1 waiting 0
poll 3 0 => object 1 value 1
status => max 3 size 2 available 1 waiting 0

# calls-see-what-was-left
pool 1 fifo none 0 => ok
start => party 0
poll 0 0 => object 0 value 0
back 0 => kept
answer pre add ok => ok
answer recycle add => ok
answer post add => ok
start => party 1
poll 1 0 => object 0 value 3

# gives-up-all-that-were-idle
pool 3 fifo none 0 => ok
start => party 0
poll 0 0 => object 0 value 0
start => party 1
poll 1 0 => object 1 value 1
start => party 2
poll 2 0 => object 2 value 2
back 0 => kept
back 1 => kept
answer recycle pending refuse refuse refuse => ok
start => party 3
poll 3 0 => pending
status => max 3 size 3 available 1 waiting 0
back 2 => kept
status => max 3 size 3 available 2 waiting 0
poll 3 0 => object 3 value 3
status => max 3 size 1 available 0 waiting 0

# post-create-refuses-odd-values
pool 3 fifo none 0 => ok
answer postcreate ok refuse ok refuse ok => ok
start => party 0
poll 0 0 => object 0 value 0
start => party 1
poll 1 0 => error `post_create` hook failed: refused
start => party 2
poll 2 0 => object 2 value 2
start => party 3
poll 3 0 => error `post_create` hook failed: refused
start => party 4
poll 4 0 => object 4 value 4
status => max 3 size 3 available 0 waiting 0

# pre-recycle-refuses-in-turn
pool 1 fifo none 0 => ok
answer pre ok refuse ok refuse ok => ok
start => party 0
poll 0 0 => object 0 value 0
back 0 => kept
status => max 1 size 1 available 1 waiting 0
start => party 1
poll 1 0 => object 0 value 0
back 0 => kept
status => max 1 size 1 available 1 waiting 0
start => party 2
poll 2 0 => object 1 value 1
back 1 => kept
status => max 1 size 1 available 1 waiting 0
start => party 3
poll 3 0 => object 1 value 1
back 1 => kept
status => max 1 size 1 available 1 waiting 0
start => party 4
poll 4 0 => object 2 value 2
back 2 => kept
status => max 1 size 1 available 1 waiting 0
start => party 5
poll 5 0 => object 2 value 2
back 2 => kept
status => max 1 size 1 available 1 waiting 0

# refused-creation-passes-its-place-on
pool 1 fifo none 0 => ok
answer create pending refuse => ok
start => party 0
poll 0 0 => pending
status => max 1 size 0 available 0 waiting 1
start => party 1
poll 1 0 => pending
status => max 1 size 0 available 0 waiting 2
poll 0 0 => error Error occurred while creating a new object: refused
status => max 1 size 0 available 0 waiting 1
poll 1 0 => object 0 value 0
status => max 1 size 1 available 0 waiting 0
back 0 => kept
status => max 1 size 1 available 1 waiting 0

# refused-new-object-passes-its-place-on
pool 1 fifo none 0 => ok
answer postcreate pending refuse => ok
start => party 0
poll 0 0 => pending
status => max 1 size 1 available 0 waiting 0
start => party 1
poll 1 0 => pending
poll 1 0 => pending
poll 1 0 => pending
status => max 1 size 1 available 0 waiting 1
poll 0 0 => error `post_create` hook failed: refused
status => max 1 size 0 available 0 waiting 1
poll 1 0 => object 1 value 1
status => max 1 size 1 available 0 waiting 0
";
