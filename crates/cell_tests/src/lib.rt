//! Tests of cells, of a store in a cell, and of workers, with threads.
#![tactic(auto)]

#[cfg(test)]
mod cells;
#[cfg(test)]
mod saving;
#[cfg(test)]
mod workers;
