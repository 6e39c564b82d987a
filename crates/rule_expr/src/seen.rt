// What stands at a place of a rule's text.
ghost use Rattle.std.specs.Prelude.{◌≡◌, ◌≢◌, ◌≤◌, ◌<◌, ◌+◌, length, slice_index, take, drop, ℕ, List, [], ◌∷◌};
ghost use Rattle.std.specs.List.{prefix_len};
ghost use Rattle.side_base.specs.Decimal.{digits_at};
ghost use Rattle.rule_expr.specs.Parts.{is_blank, is_left_out, after_blanks, keyword, is_name_byte, name_len, number_seen, one, two, mark_seen, name_seen, seen_from, seen, behind, part_at, name_at};
ghost use Rattle.rule_value.specs.declared.part.Part.TheVariants as parts;

use rule_value::whole::{is_within, whole};
use rule_value::{Call, Part, Relation, Seen, Word, next_of};
use side_base::{number_of, split_digits};

fn is_blank(byte: u8) -> bool
    ensures { result ≡ is_blank byte }
{
    byte == b' ' || byte == b'\t' || byte == b'\n' || byte == b'\r'
}

/// Whether it is a byte of the operators that are left out.
pub(crate) fn is_left_out(byte: u8) -> bool
    ensures { result ≡ is_left_out byte }
{
    byte == b'+' || byte == b'*' || byte == b'/' || byte == b'%' || byte == b'?' || byte == b'-'
}

fn blanks_len(text: &[u8]) -> usize
    ensures value { result ≡ prefix_len is_blank text.now }
    ensures within { result ≤ length text.now }
{
    text.iter().take_while(|byte| is_blank(**byte)).count()
}

/// The text without the blanks at its beginning.
#[tactic(auto, unfolding(crate::specs::Parts::after_blanks))]
pub(crate) fn after_blanks(text: &[u8]) -> &[u8]
    ensures value { result.now ≡ after_blanks text.now }
    ensures len { length result.now ≤ length text.now }
{
    let (_, rest) = text.split_at(blanks_len(text));
    rest
}

fn is_name_byte(byte: u8) -> bool
    ensures { result ≡ is_name_byte byte }
{
    byte.is_ascii_alphabetic() || byte == b'_' || byte.is_ascii_digit()
}

/// How many bytes at the beginning of the text may stand in a name.
fn name_len(text: &[u8]) -> usize
    ensures value { result ≡ name_len text.now }
    ensures within { result ≤ length text.now }
{
    text.iter().take_while(|byte| is_name_byte(**byte)).count()
}

/// What a name means.
fn keyword(name: &[u8]) -> Word
    ensures { result ≡ keyword name.now }
{
    if name == b"event".as_slice() {
        Word::Event
    } else if name == b"true".as_slice() {
        Word::True
    } else if name == b"false".as_slice() {
        Word::False
    } else if name == b"null".as_slice() {
        Word::Null
    } else if name == b"has".as_slice() {
        Word::Has
    } else if name == b"int".as_slice() {
        Word::Int
    } else if name == b"in".as_slice() {
        Word::In
    } else if name == b"startsWith".as_slice() {
        Word::Call {
            call: Call::StartsWith,
        }
    } else if name == b"endsWith".as_slice() {
        Word::Call {
            call: Call::EndsWith,
        }
    } else if name == b"contains".as_slice() {
        Word::Call {
            call: Call::Contains,
        }
    } else {
        Word::Other
    }
}

fn one(part: Part) -> Seen
    ensures { result ≡ one part }
{
    Seen { part, len: 1 }
}

fn two(part: Part) -> Seen
    ensures { result ≡ two part }
{
    Seen { part, len: 2 }
}

fn test(relation: Relation) -> Part
    ensures { result ≡ parts.Test relation }
{
    Part::Test { relation }
}

/// The first byte of the text, 0 where there is none.
fn first_of(text: &[u8]) -> u8
    ensures { result ≡ slice_index text.now 0 }
{
    if text.is_empty() { 0 } else { text[0] }
}

/// A number, before which `sign` bytes stand, or the sign alone.
fn number_seen(below: bool, sign: usize, text: &[u8]) -> Seen
    requires { sign ≤ 1 }
    ensures value { result ≡ number_seen below sign text.now }
    ensures len { result.len ≡ length (digits_at text.now) + sign }
{
    let (digits, _) = split_digits(text);
    if digits.is_empty() {
        return Seen {
            part: Part::Stray { byte: b'-' },
            len: sign,
        };
    }
    let size = number_of(digits);
    let len = digits.len() + sign;
    if is_within(below, size) {
        Seen {
            part: Part::Number {
                whole: whole(below, size),
            },
            len,
        }
    } else {
        Seen {
            part: Part::Huge,
            len,
        }
    }
}

/// A part of one or two bytes: `byte`, and `next` behind it.
#[tactic(auto, unfolding(crate::specs::Parts::mark_seen))]
fn mark_seen(byte: u8, next: u8) -> Seen
    ensures value { result ≡ mark_seen byte next }
    ensures some { 1 ≤ result.len }
{
    let doubled = next == byte;
    let equal = next == b'=';
    if byte == b'(' {
        one(Part::Open)
    } else if byte == b')' {
        one(Part::Close)
    } else if byte == b'[' {
        one(Part::OpenList)
    } else if byte == b']' {
        one(Part::CloseList)
    } else if byte == b',' {
        one(Part::Comma)
    } else if byte == b'.' {
        one(Part::Dot)
    } else if byte == b'"' || byte == b'\'' {
        one(Part::Quote)
    } else if byte == b'&' && doubled {
        two(Part::Both)
    } else if byte == b'|' && doubled {
        two(Part::Either)
    } else if byte == b'=' && equal {
        two(test(Relation::Equal))
    } else if byte == b'!' && equal {
        two(test(Relation::Unlike))
    } else if byte == b'<' && equal {
        two(test(Relation::AtMost))
    } else if byte == b'>' && equal {
        two(test(Relation::AtLeast))
    } else if byte == b'!' {
        one(Part::Bang)
    } else if byte == b'<' {
        one(test(Relation::Below))
    } else if byte == b'>' {
        one(test(Relation::Above))
    } else {
        one(Part::Stray { byte })
    }
}

/// What stands at the beginning of the text.
#[tactic(auto, unfolding(crate::specs::Parts::seen))]
pub(crate) fn seen(text: &[u8]) -> Seen
    ensures value { result ≡ seen text.now }
    ensures some { text.now ≢ [] → 1 ≤ result.len }
{
    let mut rest = text;
    match next_of(&mut rest) {
        Some(byte) => seen_from(byte, rest, text),
        None => Seen {
            part: Part::End,
            len: 0,
        },
    }
}

// What stands at the beginning of a text, of which `byte` is the first and `rest` what follows it.
fn seen_from(byte: u8, rest: &[u8], text: &[u8]) -> Seen
    requires { text.now ≡ byte ∷ rest.now }
    ensures value { result ≡ seen_from byte rest.now }
    ensures some { 1 ≤ result.len }
{
    if byte.is_ascii_alphabetic() || byte == b'_' {
        name_seen(text)
    } else if byte == b'-' {
        number_seen(true, 1, rest)
    } else if byte.is_ascii_digit() {
        number_seen(false, 0, text)
    } else {
        mark_seen(byte, first_of(rest))
    }
}

fn name_seen(text: &[u8]) -> Seen
    ensures value { result ≡ name_seen text.now }
    ensures len { result.len ≡ name_len text.now }
{
    let len = name_len(text);
    Seen {
        part: Part::Named {
            word: keyword(&text[..len]),
        },
        len,
    }
}

/// What follows the part at the beginning of the text, and the blanks behind it.
#[tactic(auto, unfolding(crate::specs::Parts::behind))]
pub(crate) fn behind(text: &[u8]) -> &[u8]
    ensures value { result.now ≡ behind text.now }
    ensures shorter { text.now ≢ [] → length result.now < length text.now }
    ensures most { length result.now ≤ length text.now }
{
    after_blanks(&text[seen(text).len.min(text.len())..])
}

/// The part at the beginning of the text.
pub(crate) fn part_at(text: &[u8]) -> Part
    ensures { result ≡ part_at text.now }
{
    seen(text).part
}

/// The bytes of the part at the beginning of the text.
pub(crate) fn name_at(text: &[u8]) -> &[u8]
    ensures { result.now ≡ name_at text.now }
{
    &text[..seen(text).len.min(text.len())]
}
