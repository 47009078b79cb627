//! Tests of polls and of tables of events, which take several crates.
#![tactic(auto)]

#[cfg(test)]
mod tests;
