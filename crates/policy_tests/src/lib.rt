//! Tests of attempts under a policy: a scripted operation, over a clock in memory.
#![tactic(auto)]

#[cfg(test)]
mod script;
#[cfg(test)]
mod tests;
