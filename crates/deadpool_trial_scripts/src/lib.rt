//! Worked scripts over a pool on one thread, as equations of the list machine's definitions. They are in `specs`.
#![tactic(auto)]
