// Texts that are compared byte by byte, wherever they stand.
ghost use Rattle.std.specs.Prelude.{◌+◌, ◌<◌, MatchOption, ◌≡◌, ◌↔◌, ◌++◌, ◌-◌, ◌^◌, min, ℕ, List, [], ◌∷◌, length, drop, IsNone, IfSome, IfNone, nat_eq};
ghost use Rattle.std.specs.Str.{bytes_eq, IsUtf8};
ghost use Rattle.std.specs.List.{starts_with};
ghost use Rattle.rule_value.specs.Values.{comes_before, ends_with, is_inside, holds};
ghost use Rattle.rule_value.specs.Wholes.{whole_of, of_digits, if_within};

use crate::part::{Call, Whole};
use crate::whole::{is_within, whole};
use json_text::TextBytes;
use std::marker::Model;

// Where a text stands: in the rule, or in the event.
#[derive(Drop)]
enum Source<'r> {
    Own(&'r [u8]),
    Told(TextBytes<'r>),
}

/// The bytes of a text that are still to come.
#[derive(Drop)]
pub(crate) struct Bytes<'r> {
    source: Source<'r>,
}

impl<'r> Model for Bytes<'r> {
    ghost use Rattle.std.specs.Prelude.{ℕ, List};
    ghost use Rattle.rule_value.specs.Bytes.{bytes_of};

    ghost Value = { List ℕ };

    ghost view = { λ b. bytes_of b.source };
}

impl<'r> Bytes<'r> {
    /// The bytes of a text in the rule.
    pub(crate) fn own(text: &'r [u8]) -> Bytes<'r>
        ensures { result ≡ text.now }
    {
        Bytes {
            source: Source::Own(text),
        }
    }

    /// The bytes of a text in the event.
    pub(crate) fn told(text: TextBytes<'r>) -> Bytes<'r>
        ensures { result ≡ text.entry }
    {
        Bytes {
            source: Source::Told(text),
        }
    }

    /// The next byte; `None` exactly where there is none.
    pub(crate) fn next(&mut self) -> Option<u8>
        ensures none { IsNone result ↔ (self.old ≡ []) }
        ensures first { IfSome result (λ byte. self.old ≡ byte ∷ self.new) }
        ensures unchanged { IfNone result (self.new ≡ self.old) }
    {
        match &mut self.source {
            Source::Own(text) => next_of(text),
            Source::Told(text) => text.next(),
        }
    }

    /// A second walk from here.
    pub(crate) fn copy(&self) -> Bytes<'r>
        ensures { result ≡ self.now }
    {
        match &self.source {
            Source::Own(text) => Bytes::own(*text),
            Source::Told(text) => Bytes::told(text.copy()),
        }
    }
}

/// The first byte of the text, which is passed; `None` exactly where there is none.
pub fn next_of(text: &mut &[u8]) -> Option<u8>
    ensures none { IsNone result ↔ (text.old.now ≡ []) }
    ensures first { IfSome result (λ byte. text.old.now ≡ byte ∷ text.new.now) }
    ensures unchanged { IfNone result (text.new.now ≡ text.old.now) }
{
    let here = *text;
    match here.first() {
        Some(byte) => {
            *text = &here[1..];
            Some(*byte)
        }
        None => None,
    }
}

/// Whether the two are the same text.
pub(crate) fn is_same(one: Bytes<'_>, other: Bytes<'_>) -> bool
    ensures { result ≡ bytes_eq one.entry other.entry }
{
    let mut one = one;
    let mut other = other;
    loop {
        match (one.next(), other.next()) {
            (Some(a), Some(b)) => {
                if a != b {
                    return false;
                }
            }
            (None, None) => return true,
            (None, Some(_)) => return false,
            (Some(_), None) => return false,
        }
    }
}

/// Whether the one comes before the other by its bytes.
pub(crate) fn comes_before(one: Bytes<'_>, other: Bytes<'_>) -> bool
    ensures { result ≡ comes_before one.entry other.entry }
{
    let mut one = one;
    let mut other = other;
    loop {
        match (one.next(), other.next()) {
            (Some(a), Some(b)) => {
                if a < b {
                    return true;
                }
                if b < a {
                    return false;
                }
            }
            (None, Some(_)) => return true,
            (None, None) => return false,
            (Some(_), None) => return false,
        }
    }
}

/// Whether the text begins with the other.
fn begins_with(all: Bytes<'_>, front: Bytes<'_>) -> bool
    ensures { result ≡ starts_with nat_eq all.entry front.entry }
{
    let mut all = all;
    let mut front = front;
    while let Some(wanted) = front.next() {
        match all.next() {
            Some(byte) => {
                if byte != wanted {
                    return false;
                }
            }
            None => return false,
        }
    }
    true
}

/// What follows as many bytes of the text as the other has; none where it has fewer.
fn behind<'a>(all: Bytes<'a>, other: Bytes<'_>) -> Option<Bytes<'a>>
    ensures { MatchOption result (length all.entry < length other.entry) (λ lead. length lead + length other.entry ≡ length all.entry) }
{
    let mut all = all;
    let mut other = other;
    while other.next().is_some() {
        if all.next().is_none() {
            return None;
        }
    }
    Some(all)
}

/// The text without as many bytes at its beginning as the other has.
fn without<'a>(all: Bytes<'a>, other: Bytes<'_>) -> Bytes<'a>
    ensures { result ≡ drop (length other.entry) all.entry }
{
    let mut all = all;
    let mut other = other;
    while other.next().is_some() {
        all.next();
    }
    all
}

/// Whether the text ends with the other.
fn ends_with(all: Bytes<'_>, end: Bytes<'_>) -> bool
    ensures { result ≡ ends_with all.entry end.entry }
{
    match behind(all.copy(), end.copy()) {
        Some(lead) => is_same(without(all, lead), end),
        None => false,
    }
}

// The bytes as a text.
fn as_text(bytes: &[u8]) -> &str
    requires { IsUtf8 bytes.now }
    ensures { result.now ≡ bytes.now }
{
    match str::from_utf8(bytes) {
        Ok(text) => text,
        Err(_) => unreachable!(),
    }
}

/// Whether the other stands somewhere in the text, in time that grows with both as their lengths do.
#[tactic(auto, using(crate::proofs::Inside::inside_text))]
fn is_inside(all: &[u8], inner: &[u8]) -> bool
    requires all { IsUtf8 all.now }
    requires inner { IsUtf8 inner.now }
    ensures { result ≡ is_inside all.now inner.now }
{
    as_text(all).contains(as_text(inner))
}

/// What a call answers of two texts.
pub(crate) fn holds(call: Call, all: &[u8], part: &[u8]) -> bool
    requires all { IsUtf8 all.now }
    requires part { IsUtf8 part.now }
    ensures { result ≡ holds call all.now part.now }
{
    match call {
        Call::StartsWith => begins_with(Bytes::own(all), Bytes::own(part)),
        Call::EndsWith => ends_with(Bytes::own(all), Bytes::own(part)),
        Call::Contains => is_inside(all, part),
    }
}

/// The number that the text spells: `-` or nothing, and digits; none outside of 64 bits.
#[tactic(auto, unfolding(crate::specs::Wholes::whole_of))]
pub(crate) fn whole_of(text: Bytes<'_>) -> Option<Whole>
    ensures { result ≡ whole_of text.entry }
{
    let mut text = text;
    match text.next() {
        Some(byte) => {
            if byte == b'-' {
                match text.next() {
                    Some(digit) => of_digits(true, digit, text),
                    None => None,
                }
            } else {
                of_digits(false, byte, text)
            }
        }
        None => None,
    }
}

// The number of `first` and the digits after it.
fn of_digits(below: bool, first: u8, others: Bytes<'_>) -> Option<Whole>
    ensures { result ≡ of_digits below (first ∷ others.entry) }
{
    let mut size = 0u64;
    let mut digit = first;
    let mut others = others;
    loop {
        if !digit.is_ascii_digit() {
            return None;
        }
        size = size
            .saturating_mul(10)
            .saturating_add(u64::from(digit - b'0'));
        match others.next() {
            Some(next) => digit = next,
            None => return if_within(below, size),
        }
    }
}

// The number of this sign and size, or of one that is cut off there, where it is within 64 bits.
#[tactic(auto, using(crate::proofs::Numbers::capped))]
fn if_within(below: bool, size: u64) -> Option<Whole>
    ensures { (n : ℕ) → size ≡ min n (2 ^ 64 - 1) → result ≡ if_within below n }
{
    if is_within(below, size) {
        Some(whole(below, size))
    } else {
        None
    }
}
