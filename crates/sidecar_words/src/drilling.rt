ghost use Rattle.std.specs.Prelude.{ℕ, IfSome, IfNone};
ghost use Rattle.sidecar_words.specs.Meaning.{AreNumbers, IsDrill};
ghost use Rattle.sidecar_words.specs.Parts.{IsCut, Lacks};
ghost use Rattle.sidecar_words.specs.Value.{IsCount};

use crate::Mode;

const REQUESTS_LIMIT: u64 = 99_999;

/// What stands before a comma and behind it.
#[derive(Clone, Copy)]
struct Parts<'a> {
    front: &'a str,
    back: &'a str,
}

/// The drill that a text asks for; `None` where it asks for none.
pub(crate) fn drill_of(text: &str) -> Option<Mode>
    ensures some { IfSome result (IsDrill text.now) }
    ensures none { IfNone result ((mode : Mode) → ¬ IsDrill text.now mode) }
{
    match cut(text) {
        Some(parts) => drill_by(parts.front, parts.back),
        None => None,
    }
}

/// The parts of a text at its first comma; `None` where there is none.
fn cut(text: &str) -> Option<Parts<'_>>
    ensures some { IfSome result (IsCut text.now) }
    ensures none { IfNone result (Lacks text.now) }
{
    match text.split_once(',') {
        Some((front, back)) => Some(Parts { front, back }),
        None => None,
    }
}

/// The drill of the numbers that two texts write; `None` where they write none.
fn drill_by(first: &str, second: &str) -> Option<Mode>
    ensures some { IfSome result (AreNumbers first.now second.now) }
    ensures none { IfNone result ((mode : Mode) → ¬ AreNumbers first.now second.now mode) }
{
    match (count(first, u64::MAX), count(second, REQUESTS_LIMIT)) {
        (Some(start), Some(requests)) => Some(Mode::Drill {
            start,
            requests: requests as u32,
        }),
        _ => None,
    }
}

/// The number that decimal digits write; `None` where they write none up to `limit`.
fn count(text: &str, limit: u64) -> Option<u64>
    ensures some { IfSome result (IsCount limit text.now) }
    ensures none { IfNone result ((number : ℕ) → ¬ IsCount limit text.now number) }
{
    let bytes = text.as_bytes();
    if bytes.is_empty() || bytes[0] == b'+' {
        return None;
    }
    match text.parse::<u64>() {
        Ok(number) if number <= limit => Some(number),
        _ => None,
    }
}
