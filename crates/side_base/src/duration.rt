ghost use Rattle.std.specs.Prelude.{◌≡◌, ◌≤◌, ◌<◌, ℕ, ◌↔◌, [], length, Err, Ok, IsErrOf, IfSome, IsNone, IsSomeAnd};
ghost use Rattle.side_base.specs.Limits.{greatest_duration};
ghost use Rattle.side_base.specs.Duration.{IsDuration, LacksDigitAt, LacksUnitAt, PartsResult, unit_at};

use crate::{number_of, split_digits};
use std::error::Error;
use std::fmt;

/// The greatest duration: 8,760 hours, in milliseconds.
pub const DURATION_LIMIT: u64 = 31_536_000_000;

const HOUR_MS: u64 = 3_600_000;

const MINUTE_MS: u64 = 60_000;

const SECOND_MS: u64 = 1_000;

/// Why a text was not taken as a duration.
#[derive(Clone, Copy, Debug, PartialEq, Eq)]
pub enum DurationErr {
    /// There are no bytes.
    Empty,
    /// The digits of a part end at `at`, and no unit follows.
    BadUnit { at: usize },
    /// A part begins at `at`, without a digit.
    BadDigit { at: usize },
    /// The parts are in order, and their sum is more than `DURATION_LIMIT`.
    TooLong,
}

impl fmt::Display for DurationErr {
    fn fmt<W: fmt::Write>(&self, f: &mut fmt::Formatter<W>) -> fmt::Result {
        match self {
            DurationErr::Empty => f.write_str("empty"),
            DurationErr::BadUnit { at } => write!(f, "no unit at {at}"),
            DurationErr::BadDigit { at } => write!(f, "no digit at {at}"),
            DurationErr::TooLong => f.write_str("too long"),
        }
    }
}

impl Error for DurationErr {}

/// A unit of time: the number of its letters, and its length in milliseconds.
#[derive(Clone, Copy)]
struct Unit {
    letters: usize,
    ms: u64,
}

/// The unit that `text` begins with: `ms` where an `s` follows an `m`.
#[tactic(auto, unfolding(crate::specs::Duration::unit_at))]
fn unit_of(text: &[u8]) -> Option<Unit>
    ensures none { IsNone result ↔ (unit_at text.now ≡ None) }
    ensures some { IfSome result (λ unit. IsSomeAnd (unit_at text.now) (λ named. (unit.letters ≡ length named.letters) × (unit.ms ≡ named.ms))) }
    ensures within { IfSome result (λ unit. unit.letters ≤ length text.now) }
    ensures positive { IfSome result (λ unit. 1 ≤ unit.ms) }
{
    let (letters, ms) = if text.starts_with(b"h") {
        (1, HOUR_MS)
    } else if text.starts_with(b"ms") {
        (2, 1)
    } else if text.starts_with(b"m") {
        (1, MINUTE_MS)
    } else if text.starts_with(b"s") {
        (1, SECOND_MS)
    } else {
        return None;
    };
    Some(Unit { letters, ms })
}

/// The milliseconds of the parts of `text`, or the greatest `u64` where that is less, and where the parts stop.
fn sum_of_parts(text: &[u8]) -> Result<u64, DurationErr>
    ensures { PartsResult text.now result }
{
    let mut total = 0u64;
    let mut rest = text;
    while !rest.is_empty() {
        let (digits, after) = split_digits(rest);
        if digits.is_empty() {
            return Err(DurationErr::BadDigit {
                at: text.len() - rest.len(),
            });
        }
        let Some(unit) = unit_of(after) else {
            return Err(DurationErr::BadUnit {
                at: text.len() - after.len(),
            });
        };
        total = total.saturating_add(number_of(digits).saturating_mul(unit.ms));
        let (_, next) = after.split_at(unit.letters);
        rest = next;
    }
    Ok(total)
}

/// The milliseconds that a duration writes: one or more parts of decimal digits and a unit `h`, `m`, `s` or `ms`, as
/// `1h30m`, read from the left, where `ms` is read before `m`. No sign, blank or fraction may stand in it, and parts may
/// stand in any order, also twice. Takes no memory.
pub fn duration_ms(text: &[u8]) -> Result<u64, DurationErr>
    ensures ok { (ms : ℕ) → (result ≡ Ok ms) ↔ (IsDuration text.now ms × (ms ≤ greatest_duration)) }
    ensures empty { IsErrOf result DurationErr.Empty ↔ (text.now ≡ []) }
    ensures bad_unit { (at : ℕ) → IsErrOf result (DurationErr.BadUnit at) ↔ LacksUnitAt text.now at }
    ensures bad_digit { (at : ℕ) → IsErrOf result (DurationErr.BadDigit at) ↔ LacksDigitAt text.now at }
    ensures too_long { IsErrOf result DurationErr.TooLong ↔ ((ms : ℕ) × IsDuration text.now ms × (greatest_duration < ms)) }
{
    if text.is_empty() {
        return Err(DurationErr::Empty);
    }
    let total = sum_of_parts(text)?;
    if total > DURATION_LIMIT {
        return Err(DurationErr::TooLong);
    }
    Ok(total)
}
