use std::alloc::{AllocError, AllocFailed};
use std::error::Error;
use std::fmt;

/// Why bytes were not read as a JSON text.
#[derive(Clone, Copy, Debug, PartialEq, Eq)]
pub enum JsonErr {
    /// Place `at` is bad: no JSON text has the bytes before and at it as a prefix, or the input ends there, or the
    /// escape of a surrogate without its other half begins there. It is the least such place.
    Bad { at: usize },
    /// A list or a map that would be the 65th open one begins at place `at`.
    Deep { at: usize },
    /// There is no room for the values.
    NoMemory,
}

impl fmt::Display for JsonErr {
    fn fmt<W: fmt::Write>(&self, f: &mut fmt::Formatter<W>) -> fmt::Result {
        match self {
            JsonErr::Bad { at } => write!(f, "no JSON at {at}"),
            JsonErr::Deep { at } => write!(f, "nested too deep at {at}"),
            JsonErr::NoMemory => f.write_str("no memory"),
        }
    }
}

impl Error for JsonErr {}
