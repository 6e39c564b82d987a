//! Tests of a connection: sessions over bytes in memory, answered by a handler of the tests' own.
#![tactic(auto)]

#[cfg(test)]
mod desk;
#[cfg(test)]
mod tests;
