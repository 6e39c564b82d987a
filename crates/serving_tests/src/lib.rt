//! Tests of workers that serve: two that must find each other in the midst of their work, over an outside in memory, and four over loopback.
#![tactic(auto)]

#[cfg(test)]
mod clients;
#[cfg(test)]
mod crowds;
#[cfg(test)]
mod held_disk;
#[cfg(test)]
mod holding;
#[cfg(test)]
mod meeting;
#[cfg(test)]
mod passing;
#[cfg(test)]
mod scripts;
#[cfg(test)]
mod served;
#[cfg(test)]
mod slow_gate;
