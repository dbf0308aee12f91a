//! Tests of pools that find no memory.
#![tactic(auto)]

#[cfg(test)]
mod tests;
