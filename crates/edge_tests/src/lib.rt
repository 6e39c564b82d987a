//! Tests of the real devices: over loopback the door, played from a text, and the link, against listeners of the tests' own; and
//! files, clocks and numbers of the host.
#![tactic(auto)]

#[cfg(test)]
mod calls;
#[cfg(test)]
mod clients;
#[cfg(test)]
mod devices;
#[cfg(test)]
mod scene;
#[cfg(test)]
mod slow;
#[cfg(test)]
mod tests;
