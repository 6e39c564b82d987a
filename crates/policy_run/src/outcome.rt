ghost use Rattle.std.specs.Prelude.{◌≡◌, ◌++◌, IfOk};
ghost use Rattle.policy_run.specs.RefusalText.{refusal_text};

use itoa::{Buffer, Integer};
use side_base::{NoMemory, Text};
use std::alloc::Global;

/// Why a circuit breaker did not let a call through.
#[derive(Clone, Copy, Debug, PartialEq, Eq)]
pub enum Refusal {
    /// The breaker is open, up to this moment, in milliseconds since 1970; it may lie past the greatest `Moment`.
    Opened { until: u64 },
    /// The breaker is half-open, and has let `out` calls through, the most that it may.
    TooMany { out: u32 },
}

impl Refusal {
    /// What is told of it: `breaker open until <until>` or `breaker half-open with <out>`.
    pub fn text(self, alloc: Global) -> Result<Text, NoMemory>
        ensures { IfOk result (λ text. text ≡ refusal_text self) }
    {
        match self {
            Refusal::Opened { until } => numbered(alloc, "breaker open until ", until),
            Refusal::TooMany { out } => numbered(alloc, "breaker half-open with ", out),
        }
    }
}

/// A text that ends with a number.
fn numbered<I: Integer>(alloc: Global, text: &str, number: I) -> Result<Text, NoMemory>
    ensures { IfOk result (λ told. told ≡ text.now ++ I.text number) }
{
    let mut told = Text::new(alloc);
    told.push(text)?;
    let mut digits = Buffer::new();
    told.push(digits.format(number))?;
    Ok(told)
}

/// How a call under a policy ended.
#[derive(Debug, Drop)]
pub enum Outcome<G, B> {
    /// The last attempt was good.
    Good(G),
    /// The last attempt failed, and no further one follows.
    Bad(B),
    /// The circuit breaker did not let an attempt through.
    Refused(Refusal),
    /// The breaker's cell has no ticket left; `count` was read in it, and its seat shows it.
    Exhausted { count: u64 },
    /// An attempt ended for want of memory.
    NoMemory,
}
