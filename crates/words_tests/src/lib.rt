//! Words of the command line, and what they mean.
#![tactic(auto)]

#[cfg(test)]
mod words;
