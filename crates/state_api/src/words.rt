//! The words of state requests: keys, ETags, modes, times to live.
ghost use Rattle.std.specs.Prelude.{◌≡◌, ◌++◌, Ok, Some, IfOk, length};
ghost use Rattle.std.specs.Str.{IsCharBoundary};
ghost use Rattle.std.specs.List.{list_all};
ghost use Rattle.std.specs.Char.{is_ascii_digit};
ghost use Rattle.state_core.specs.Taken.{IsTtl};
ghost use Rattle.state_api.specs.Given.{Gives};
ghost use Rattle.state_api.specs.Words.{begins_with_bar, etag_of, front_of, has_bars, is_key, is_number, is_quoted, is_unsaid, mode_in, mode_of, starts_with_zero, stored_key, ttl_in, ttl_of, unquoted};

use crate::{StateErr, What};
use side_base::{NoMemory, Text, number_of};
use state_core::{Mode, Prefix};
use std::alloc::Global;

/// The most bytes of a key.
const LONGEST_KEY: usize = 1_024;

/// The most digits of a time to live.
const MOST_DIGITS: usize = 10;

/// The longest time to live, in seconds.
const LONGEST_TTL: u64 = 4_294_967_295;

/// What stands between the prefix and the key.
pub(crate) const SEPARATOR: &str = "||";

const BAR: u8 = b'|';

const QUOTE: u8 = b'"';

const ZERO: u8 = b'0';

/// The key as it is stored: behind the prefix, where there is one.
pub(crate) fn stored_key(alloc: Global, prefix: &Prefix, key: &Text) -> Result<Text, StateErr>
    ensures gives { Gives result (stored_key prefix.now key.now) }
    ensures cut { IfOk result (λ stored. IsCharBoundary stored (length (front_of prefix.now))) }
{
    if !is_key(key.bytes()) {
        return Err(StateErr::Malformed { what: What::Key });
    }
    match behind(alloc, prefix, key) {
        Ok(stored) => Ok(stored),
        Err(_) => Err(StateErr::NoMemory),
    }
}

/// The key behind the prefix.
fn behind(alloc: Global, prefix: &Prefix, key: &Text) -> Result<Text, NoMemory>
    ensures { IfOk result (λ stored. stored ≡ front_of prefix.now ++ key.now) }
{
    match &prefix.text {
        Some(front) => {
            let len = (SEPARATOR.len() + key.bytes().len()).saturating_add(front.bytes().len());
            let mut stored = String::with_capacity(alloc, len)?;
            stored.push_str(front.as_str())?;
            stored.push_str(SEPARATOR)?;
            stored.push_str(key.as_str())?;
            Ok(Text::from_string(stored))
        }
        None => key.copy(),
    }
}

/// Whether a key has 1 to 1,024 bytes and no two bars in a row.
fn is_key(key: &[u8]) -> bool
    ensures { result ≡ is_key key.now }
{
    1 <= key.len() && key.len() <= LONGEST_KEY && !has_bars(key)
}

/// Whether two bars stand in a row. Takes no memory.
pub fn has_bars(key: &[u8]) -> bool
    ensures { result ≡ has_bars key.now }
{
    let mut rest = key;
    while let [first, after @ ..] = rest {
        if *first == BAR && begins_with_bar(after) {
            return true;
        }
        rest = after;
    }
    false
}

/// Whether the first byte is a bar.
fn begins_with_bar(rest: &[u8]) -> bool
    ensures { result ≡ begins_with_bar rest.now }
{
    match rest {
        [first, ..] => *first == BAR,
        [] => false,
    }
}

/// How many bytes stand before the request's key in the stored one.
pub(crate) fn front_len(prefix: &Prefix) -> usize
    ensures { result ≡ length (front_of prefix.now) }
{
    match &prefix.text {
        Some(front) => front.bytes().len() + SEPARATOR.len(),
        None => 0,
    }
}

/// The ETag without one pair of quotes round it; an empty one is as none.
pub(crate) fn etag_of(alloc: Global, etag: Option<Text>) -> Result<Option<Text>, StateErr>
    ensures { Gives result (Ok (etag_of etag)) }
{
    match etag {
        Some(text) => {
            if text.is_empty() {
                return Ok(None);
            }
            match unquoted(alloc, text) {
                Ok(inside) => Ok(Some(inside)),
                Err(_) => Err(StateErr::NoMemory),
            }
        }
        None => Ok(None),
    }
}

/// The text without one pair of quotes round it. It is moved where there is none.
fn unquoted(alloc: Global, text: Text) -> Result<Text, NoMemory>
    ensures { IfOk result (λ inside. inside ≡ unquoted text) }
{
    if !is_quoted(text.bytes()) {
        return Ok(text);
    }
    Text::from_str(alloc, &text.as_str()[1..text.len() - 1])
}

/// Whether two quotes stand round the text.
fn is_quoted(text: &[u8]) -> bool
    ensures { result ≡ is_quoted text.now }
{
    match text {
        [first, .., last] => *first == QUOTE && *last == QUOTE,
        _ => false,
    }
}

/// The mode that a word means.
pub(crate) fn mode_of(word: &Option<Text>) -> Result<Mode, StateErr>
    ensures { Gives result (mode_of word.now) }
{
    match word {
        Some(text) => mode_in(text.bytes()),
        None => Ok(Mode::Unsaid),
    }
}

/// The mode that a word means.
pub(crate) fn mode_in(word: &[u8]) -> Result<Mode, StateErr>
    ensures { Gives result (mode_in word.now) }
{
    if word == b"first-write".as_slice() {
        Ok(Mode::FirstWrite)
    } else if word == b"last-write".as_slice() {
        Ok(Mode::LastWrite)
    } else if is_unsaid(word) {
        Ok(Mode::Unsaid)
    } else {
        Err(StateErr::Malformed {
            what: What::Concurrency,
        })
    }
}

/// Whether the word says no mode.
fn is_unsaid(word: &[u8]) -> bool
    ensures { result ≡ is_unsaid word.now }
{
    word == b"".as_slice() || word == b"unspecified".as_slice()
}

/// The seconds to live that a text means; `None` is for ever.
pub(crate) fn ttl_of(text: &Option<Text>) -> Result<Option<u64>, StateErr>
    ensures gives { Gives result (ttl_of text.now) }
    ensures range { IfOk result IsTtl }
{
    match text {
        Some(text) => ttl_in(text.bytes()),
        None => Ok(None),
    }
}

/// The seconds to live that a text means.
fn ttl_in(text: &[u8]) -> Result<Option<u64>, StateErr>
    ensures gives { Gives result (ttl_in text.now) }
    ensures range { IfOk result IsTtl }
{
    if text == b"-1".as_slice() {
        return Ok(None);
    }
    if !is_number(text) {
        return Err(StateErr::Malformed { what: What::Ttl });
    }
    let seconds = number_of(text);
    if 1 <= seconds && seconds <= LONGEST_TTL {
        Ok(Some(seconds))
    } else {
        Err(StateErr::Malformed { what: What::Ttl })
    }
}

/// Whether a text is 1 to 10 decimal digits without a leading zero.
fn is_number(text: &[u8]) -> bool
    ensures { result ≡ is_number text.now }
{
    are_digits(text) && 1 <= text.len() && text.len() <= MOST_DIGITS && !starts_with_zero(text)
}

fn are_digits(text: &[u8]) -> bool
    ensures { result ≡ list_all is_ascii_digit text.now }
{
    text.iter().all(|digit| digit.is_ascii_digit())
}

fn starts_with_zero(text: &[u8]) -> bool
    ensures { result ≡ starts_with_zero text.now }
{
    match text {
        [first, ..] => *first == ZERO,
        [] => false,
    }
}
