use side_base::NoMemory;
use std::error::Error;
use std::fmt;

/// A cell that has no ticket left: its history has 2^62 entries, or will have them once the calls under way are done.
#[derive(Clone, Copy, Debug, PartialEq, Eq)]
pub struct Exhausted {
    /// The number that was read in a word of the cell, from 2^62 on.
    pub count: u64,
}

impl fmt::Display for Exhausted {
    fn fmt<W: fmt::Write>(&self, f: &mut fmt::Formatter<W>) -> fmt::Result {
        write!(f, "exhausted at {}", self.count)
    }
}

impl Error for Exhausted {}

/// Why a call over a cell gave up.
#[derive(Clone, Copy, Debug, PartialEq, Eq)]
pub enum ApiErr {
    /// There was no memory.
    NoMemory,
    /// A cell has no ticket left; `count` is from 2^62 on.
    Exhausted { count: u64 },
}

impl fmt::Display for ApiErr {
    fn fmt<W: fmt::Write>(&self, f: &mut fmt::Formatter<W>) -> fmt::Result {
        match self {
            ApiErr::NoMemory => f.write_str("no memory"),
            ApiErr::Exhausted { count } => write!(f, "exhausted at {count}"),
        }
    }
}

impl Error for ApiErr {}

impl From<NoMemory> for ApiErr {
    ghost use Rattle.std.specs.Prelude.{◌≡◌};
    ghost use Rattle.turn_cell.specs.declared.error.ApiErr.TheVariants.{NoMemory as out_of_memory};

    ghost from_gives = { λ _ r. r ≡ out_of_memory };

    fn from(_: NoMemory) -> ApiErr {
        ApiErr::NoMemory
    }
}

impl From<Exhausted> for ApiErr {
    ghost use Rattle.std.specs.Prelude.{◌≡◌};
    ghost use Rattle.turn_cell.specs.declared.error.ApiErr.TheVariants.{Exhausted as exhausted_at};

    ghost from_gives = { λ exhausted r. r ≡ exhausted_at exhausted.count };

    fn from(exhausted: Exhausted) -> ApiErr {
        ApiErr::Exhausted {
            count: exhausted.count,
        }
    }
}
