//! Tests of the devices in memory: each fails exactly at the calls that it is told to, and answers what it is given.
#![tactic(auto)]

#[cfg(test)]
mod tests;
