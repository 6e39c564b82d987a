ghost use Rattle.std.specs.Prelude.{◌≡◌, ◌≢◌, ◌≤◌, ◌-◌, ◌==◌, ℕ, ◌↔◌, length, Err, Ok, IsErrOf, IfOk, IfErr, IfSome, IsNone, Some, None, List, drop};
ghost use Rattle.std.specs.Bool.{OnTrue, OnFalse};
ghost use Rattle.std.specs.List.{prefix_len};
ghost use Rattle.retry_core.specs.declared.trip.Trip.{Trip as TripRecord};
ghost use Rattle.retry_core.specs.TripText.{after_spaces, word_at, counters, signs, joins, Takes, Compares, IsTrip, LacksCounterAt, LacksSignAt, LacksNumberAt, MixesJoinsAt, IsLongAt, TripResult, LacksComparison};

use crate::{Comparison, Counter, Join, Sign, Trip};
use side_base::{number_of, split_digits};
use std::error::Error;
use std::fmt;

const SPACE: u8 = b' ';

/// Why a text was not taken as a trip: the first of these from left to right. `at` is the place where a part belongs, after
/// the spaces before it.
#[derive(Clone, Copy, Debug, PartialEq, Eq)]
pub enum TripErr {
    /// A comparison begins at `at`, without the name of a count.
    Counter { at: usize },
    /// A sign, a join or the end belongs at `at`, and something else stands there.
    Sign { at: usize },
    /// A number of at most 4,294,967,295 belongs at `at`, and none stands there.
    Number { at: usize },
    /// The join at `at` is unlike the first.
    Mixed { at: usize },
    /// The join at `at` is the fourth.
    Long { at: usize },
}

impl fmt::Display for TripErr {
    fn fmt<W: fmt::Write>(&self, f: &mut fmt::Formatter<W>) -> fmt::Result {
        match self {
            TripErr::Counter { at } => write!(f, "no count at {at}"),
            TripErr::Sign { at } => write!(f, "no sign at {at}"),
            TripErr::Number { at } => write!(f, "no number at {at}"),
            TripErr::Mixed { at } => write!(f, "another join at {at}"),
            TripErr::Long { at } => write!(f, "a fourth join at {at}"),
        }
    }
}

impl Error for TripErr {}

/// The text without the spaces at its beginning.
#[tactic(auto, unfolding(crate::specs::TripText::after_spaces))]
fn skip_spaces(text: &[u8]) -> &[u8]
    ensures value { result.now ≡ after_spaces text.now }
    ensures len { length result.now ≤ length text.now }
{
    let (_, rest) = text.split_at(spaces_len(text));
    rest
}

fn spaces_len(text: &[u8]) -> usize
    ensures value { result ≡ prefix_len (λ byte. byte == 32) text.now }
    ensures within { result ≤ length text.now }
{
    text.iter().take_while(|byte| **byte == SPACE).count()
}

/// The text after its first `len` bytes and the spaces that follow them.
fn after_word(text: &[u8], len: usize) -> &[u8]
    requires { len ≤ length text.now }
    ensures value { result.now ≡ after_spaces (drop len text.now) }
    ensures shorter { length result.now ≤ length text.now }
{
    let (_, rest) = text.split_at(len);
    skip_spaces(rest)
}

/// The length of the name of a count that `text` begins with, and the count.
#[tactic(auto, unfolding(crate::specs::TripText::word_at))]
fn counter_of(text: &[u8]) -> Option<(usize, Counter)>
    ensures none { IsNone result ↔ (word_at counters text.now ≡ None) }
    ensures some { IfSome result (λ found. (word : List ℕ) × (word_at counters text.now ≡ Some (word, found.1)) × (found.0 ≡ length word)) }
    ensures within { IfSome result (λ found. found.0 ≤ length text.now) }
{
    if text.starts_with(b"consecutiveFailures") {
        Some((19, Counter::ConsecutiveFailures))
    } else if text.starts_with(b"requests") {
        Some((8, Counter::Requests))
    } else if text.starts_with(b"totalFailures") {
        Some((13, Counter::TotalFailures))
    } else {
        None
    }
}

/// The length of the sign that `text` begins with, and the sign.
#[tactic(auto, unfolding(crate::specs::TripText::word_at))]
fn sign_of(text: &[u8]) -> Option<(usize, Sign)>
    ensures none { IsNone result ↔ (word_at signs text.now ≡ None) }
    ensures some { IfSome result (λ found. (word : List ℕ) × (word_at signs text.now ≡ Some (word, found.1)) × (found.0 ≡ length word)) }
    ensures within { IfSome result (λ found. found.0 ≤ length text.now) }
{
    if text.starts_with(b">=") {
        Some((2, Sign::AtLeast))
    } else if text.starts_with(b">") {
        Some((1, Sign::Above))
    } else if text.starts_with(b"<=") {
        Some((2, Sign::AtMost))
    } else if text.starts_with(b"<") {
        Some((1, Sign::Below))
    } else if text.starts_with(b"==") {
        Some((2, Sign::Equal))
    } else {
        None
    }
}

/// The length of the join that `text` begins with, and the join.
#[tactic(auto, unfolding(crate::specs::TripText::word_at))]
fn join_of(text: &[u8]) -> Option<(usize, Join)>
    ensures none { IsNone result ↔ (word_at joins text.now ≡ None) }
    ensures some { IfSome result (λ found. (word : List ℕ) × (word_at joins text.now ≡ Some (word, found.1)) × (found.0 ≡ length word)) }
    ensures within { IfSome result (λ found. found.0 ≤ length text.now) }
{
    if text.starts_with(b"&&") {
        Some((2, Join::All))
    } else if text.starts_with(b"||") {
        Some((2, Join::Any))
    } else {
        None
    }
}

/// The comparison that `text`, an end of `whole`, begins with, and what is left after it.
fn comparison_of<'a>(whole: &[u8], text: &'a [u8]) -> Result<(Comparison, &'a [u8]), TripErr>
    requires { length text.now ≤ length whole.now }
    ensures found { IfOk result (λ found. Compares text.now found.0 found.1.now) }
    ensures absent { IfErr result (LacksComparison whole.now text.now) }
{
    let Some((len, counter)) = counter_of(text) else {
        return Err(TripErr::Counter {
            at: whole.len() - text.len(),
        });
    };
    let signed = after_word(text, len);
    let Some((len, sign)) = sign_of(signed) else {
        return Err(TripErr::Sign {
            at: whole.len() - signed.len(),
        });
    };
    let numbered = after_word(signed, len);
    let (digits, rest) = split_digits(numbered);
    match u32::try_from(number_of(digits)) {
        Ok(number) if !digits.is_empty() => Ok((
            Comparison {
                counter,
                sign,
                number,
            },
            rest,
        )),
        _ => Err(TripErr::Number {
            at: whole.len() - numbered.len(),
        }),
    }
}

/// Whether the join after `count` comparisons differs from the one before it.
fn is_unlike(count: usize, join: Join, found: Join) -> bool
    ensures unlike { OnTrue result ((count ≢ 1) × (found ≢ join)) }
    ensures like { OnFalse result (count ≢ 1 → join ≡ found) }
{
    count != 1 && found != join
}

/// The trip of which `first` is the first comparison, and `after` the text of `whole` after it.
fn joined(whole: &[u8], first: Comparison, after: &[u8]) -> Result<Trip, TripErr>
    requires { Compares whole.now first after.now }
    ensures { TripResult whole.now result }
{
    let mut join = Join::All;
    let mut comparisons = [Some(first), None, None, None];
    let mut count = 1;
    let mut after = after;
    while !after.is_empty() {
        let rest = skip_spaces(after);
        let at = whole.len() - rest.len();
        let Some((len, found)) = join_of(rest) else {
            return Err(TripErr::Sign { at });
        };
        if is_unlike(count, join, found) {
            return Err(TripErr::Mixed { at });
        }
        join = found;
        if count == comparisons.len() {
            return Err(TripErr::Long { at });
        }
        let (comparison, next) = comparison_of(whole, after_word(rest, len))?;
        comparisons[count] = Some(comparison);
        count += 1;
        after = next;
    }
    Ok(Trip { join, comparisons })
}

/// The trip that a text writes: one to four comparisons, each the name of a count, a sign and a number of at most
/// 4,294,967,295 in decimal digits, joined all by `&&` or all by `||`. Spaces may stand between these parts, and not before
/// the first or after the last. Takes no memory.
pub fn trip_of(text: &[u8]) -> Result<Trip, TripErr>
    ensures ok { (trip : TripRecord) → (result ≡ Ok trip) ↔ IsTrip text.now trip }
    ensures counter { (at : ℕ) → IsErrOf result (TripErr.Counter at) ↔ LacksCounterAt text.now at }
    ensures sign { (at : ℕ) → IsErrOf result (TripErr.Sign at) ↔ LacksSignAt text.now at }
    ensures number { (at : ℕ) → IsErrOf result (TripErr.Number at) ↔ LacksNumberAt text.now at }
    ensures mixed { (at : ℕ) → IsErrOf result (TripErr.Mixed at) ↔ MixesJoinsAt text.now at }
    ensures long { (at : ℕ) → IsErrOf result (TripErr.Long at) ↔ IsLongAt text.now at }
{
    let (first, after) = comparison_of(text, text)?;
    joined(text, first, after)
}
