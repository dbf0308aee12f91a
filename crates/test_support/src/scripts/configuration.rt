//! Pools that are configured by a text.

/// Configurations that are read, and those that are refused.
pub const CONFIGURATION: &str = r#"# all-timeouts-zero
config clock 0 {"max_size":16,"timeouts":{"wait":{"secs":0,"nanos":0},"create":{"secs":0,"nanos":0},"recycle":{"secs":0,"nanos":0}}} => ok
answer create pending => ok
start => party 0
poll 0 0 => error Timeout occurred while creating a new object
status => max 16 size 0 available 0 waiting 0

# carry-past-the-end
config clock 0 {"max_size":1,"timeouts":{"wait":{"secs":18446744073709551615,"nanos":1000000000}}} => error A timeout is not a duration
config clock 0 {"max_size":1,"timeouts":{"wait":{"secs":1}}} => error A timeout is not a duration
config clock 0 {"max_size":1,"timeouts":{"wait":{"secs":1,"nanos":1500000000}}} => ok
start => party 0
poll 0 0 => object 0 value 0
start => party 1
poll 1 0 => pending
poll 1 2499999999 => pending
poll 1 2500000000 => error Timeout occurred while waiting for a slot to become available

# replies-to-config
config none 0 [] => error Configuration is not an object
config none 0 {"queue_mode":5} => error max_size is missing
config none 0 {"max_size":-1} => error max_size is not a whole number in range
config none 0 {"max_size":1,"timeouts":null,"queue_mode":5} => error Configuration is not an object
config none 0 {"max_size":1,"timeouts":{"wait":{"secs":1,"nanos":0,"x":1}}} => error A timeout is not a duration
config none 0 {"max_size":1,"queue_mode":"lifo"} => error queue_mode is not Fifo or Lifo
config none 0 {"max_size":1,"timeouts":{"wait":{"secs":0,"nanos":0}}} => error Error occurred while building the pool: Timeouts require a runtime
config none 0 {"max_size":1 => error Configuration is not JSON
config none 0 {"max_size":1,"timeouts":{"wait":null},"note":[]} => ok

# json
config none 0 {"max_size":1,"queue_mode":5,"min_idle":null} => error queue_mode is not Fifo or Lifo
config none 0 {"max_size":1,"min_idle":null} => error min_idle is not a whole number in range
config none 0 {"max_size":1,"min_idle":0} => ok

# floor-of-a-configuration
config none 0 {"max_size":3,"min_idle":1} => ok
start => party 0
poll 0 0 => object 0 value 0
start => party 1
poll 1 0 => object 1 value 1
start => party 2
poll 2 0 => object 2 value 2
back 0 => kept
back 1 => kept
back 2 => kept
retain => retained 1 removed 0 1

# floors-that-are-no-numbers
config none 0 {"max_size":1,"min_idle":null} => error min_idle is not a whole number in range
config none 0 {"max_size":1,"min_idle":-1} => error min_idle is not a whole number in range
config none 0 {"max_size":1,"min_idle":1.5} => error min_idle is not a whole number in range
config none 0 {"max_size":1,"min_idle":18446744073709551616} => error min_idle is not a whole number in range
config none 0 {"max_size":1,"min_idle":18446744073709551615} => ok

# bound-of-a-configuration
config none 0 {"max_size":1,"max_waiting":1} => ok
start => party 0
poll 0 0 => object 0 value 0
start => party 1
poll 1 0 => pending
start => party 2
poll 2 0 => error Too many gets wait for a slot

# bounds-that-are-no-numbers
config none 0 {"max_size":1,"min_idle":null,"max_waiting":-1} => error min_idle is not a whole number in range
config none 0 {"max_size":1,"max_waiting":-1} => error max_waiting is not a whole number in range
config none 0 {"max_size":1,"max_waiting":1.5} => error max_waiting is not a whole number in range
config none 0 {"max_size":1,"max_waiting":18446744073709551616} => error max_waiting is not a whole number in range
config none 0 {"max_size":1,"max_waiting":null} => ok
"#;
