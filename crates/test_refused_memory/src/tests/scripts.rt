//! The scripts whose lines find no memory: worked ones, and some more. Only what their lines say is played: the replies
//! are those of a run that finds memory.
use std::alloc::Global;
use std::test::Fail;
use test_support::scripts::{
    FIRST_PATH, MAX_WAITING, MIN_IDLE, OWN_STEPS, PREPARATION, TIMEOUTS, UNMANAGED, is_listed,
    script_of,
};

// Worked scripts over managed pools.
const WORKED: &str = "three-gets-and-returns numbers-exhausted gives-up-all-that-were-idle
    post-create-refuses-odd-values pre-recycle-refuses-in-turn refused-creation-passes-its-place-on
    cancelled-while-granted creation-timeout-of-zero granted-before-the-clock-is-asked
    timeouts-without-a-runtime wait-ends-at-its-deadline close going-over-a-close grow-shrink-grow
    growth-grants-a-waiter shrink-and-grow-with-objects-out take floor-under-shrink-and-retain late-get-makes-room";

// Worked scripts over unmanaged pools.
const WORKED_UNMANAGED: &str = "add-and-remove no-runtime one-more-is-refused";

/// Scripts over managed pools.
pub fn managed(alloc: Global) -> Result<Vec<&'static str>, Fail> {
    let texts = [
        FIRST_PATH,
        PREPARATION,
        TIMEOUTS,
        OWN_STEPS,
        MIN_IDLE,
        MAX_WAITING,
    ];
    chosen(alloc, &texts, WORKED, OWN)
}

/// Scripts over unmanaged pools.
pub fn unmanaged(alloc: Global) -> Result<Vec<&'static str>, Fail> {
    chosen(alloc, &[UNMANAGED], WORKED_UNMANAGED, OWN_UNMANAGED)
}

// The scripts of the texts that have these names, and all of one text more.
fn chosen(
    alloc: Global,
    texts: &[&'static str],
    names: &str,
    own: &'static str,
) -> Result<Vec<&'static str>, Fail> {
    let mut scripts = Vec::new(alloc);
    for text in texts {
        for script in text.split("\n\n") {
            let (name, _) = script_of(script);
            if is_listed(names, name) {
                scripts.push(script)?;
            }
        }
    }
    if scripts.len() != names.split_whitespace().count() {
        return Err(Fail::new("a name is of no worked script"));
    }
    for script in own.split("\n\n") {
        scripts.push(script)?;
    }
    Ok(scripts)
}

// More over managed pools.
const OWN: &str = "\
# a shrink and a growth with objects out
pool 2 lifo none 0
start
poll 0 0
start 0 - -
poll 1 0
resize 1
start
poll 2 0
resize 12
poll 2 0
put 2 9
back 2
back 0
back 1

# a shrink under a get that has no object
pool 1 fifo none 0
start
poll 0 0
resize 0
resize 1
start 0 - -
poll 1 0
resize 5
start 0 - -
poll 2 0

# a retain
pool 4 lifo none 0
start
poll 0 0
start
poll 1 0
start
poll 2 0
start
poll 3 0
back 0
back 1
back 2
back 3
retain 1 3
start
poll 4 0
resize 1
back 3
retain

# the last handle
pool 1 fifo none 0
start
poll 0 0
clone
drop
drop
upgrade
back 0
start
resize 2
retain

# a growth that serves the earliest first
pool 2 fifo none 0
start
poll 0 0
start
poll 1 0
start
poll 2 0
start
poll 3 0
back 0
resize 0
resize 2
poll 3 0
poll 2 0
poll 3 0

# nine that wait
pool 0 fifo none 0
start
start
start
start
start
start
start
start
start
poll 8 0
poll 7 0
poll 6 0
poll 5 0
poll 4 0
poll 3 0
poll 2 0
poll 1 0
poll 0 0
cancel 6
resize 9
poll 7 0
poll 8 0
poll 0 0
";

// More over unmanaged pools.
const OWN_UNMANAGED: &str = "\
# a get that was granted an object
unmanaged 1 none
get
poll 0 0
tryadd 7
tryget
clone
drop
drop
poll 0 0

# a wait that ends
unmanaged 2 clock
get 1000000
poll 0 0
poll 0 999999
poll 0 1000000
tryadd 5
get 1000000
poll 1 0
back 0

# gets and adds that wait
unmanaged 1 none
get
get
get
poll 2 0
poll 1 0
poll 0 0
add 4
poll 3 0
add 5
add 6
poll 5 0
poll 4 0
cancel 5
poll 2 0
take 0
poll 4 0
poll 1 0
back 1
poll 0 0

# the last handle
unmanaged 1 none
tryadd 1
tryget
add 2
poll 0 0
drop
upgrade
back 0
get
tryadd 3
";
