// Fields by their names, and list values (RFC 9110, sections 5.1 and 5.6.1).
ghost use Rattle.std.specs.Prelude.{◌≡◌, ◌∷◌, ◌==◌, reverse, option_copied, position};
ghost use Rattle.side_base.specs.Field.{is_same_word, is_named, first_named, first_value, trimmed, without_front_blanks, is_blank, list_items, items_behind, has_item};

use crate::{Field, Fields};

const COMMA: u8 = b',';

const SPACE: u8 = b' ';

const TAB: u8 = b'\t';

/// Whether two words are one without regard to the case of ASCII letters.
#[tactic(auto, unfolding(crate::specs::Field::is_same_word))]
pub fn is_same_word(one: &[u8], other: &[u8]) -> bool
    ensures { result ≡ is_same_word one.now other.now }
{
    one.eq_ignore_ascii_case(other)
}

/// The first field of this name, in any case of its ASCII letters; `None` exactly where there is none.
#[tactic(auto, unfolding(crate::specs::Field::first_named))]
pub fn first_named<'a>(fields: &'a Fields, name: &[u8]) -> Option<&'a Field>
    ensures { option_copied result ≡ first_named name.now fields.now }
{
    for i in 0..fields.len() {
        let field = fields.at(i);
        if is_same_word(field.name.bytes(), name) {
            return Some(field);
        }
    }
    None
}

/// The value of the first field of this name; `None` exactly where there is none.
#[tactic(auto, unfolding(crate::specs::Field::first_value))]
pub fn first_value<'a>(fields: &'a Fields, name: &[u8]) -> Option<&'a [u8]>
    ensures { option_copied result ≡ first_value name.now fields.now }
{
    match first_named(fields, name) {
        Some(field) => Some(field.value.bytes()),
        None => None,
    }
}

/// The bytes without the spaces and tabs at both ends.
#[tactic(auto, unfolding(crate::specs::Field::trimmed))]
pub fn trimmed(bytes: &[u8]) -> &[u8]
    ensures { result.now ≡ trimmed bytes.now }
{
    without_back_blanks(without_front_blanks(bytes))
}

fn without_front_blanks(bytes: &[u8]) -> &[u8]
    ensures { result.now ≡ without_front_blanks bytes.now }
{
    let mut rest = bytes;
    while let [first, after @ ..] = rest {
        if !is_blank(*first) {
            return rest;
        }
        rest = after;
    }
    rest
}

fn without_back_blanks(bytes: &[u8]) -> &[u8]
    ensures { result.now ≡ reverse (without_front_blanks (reverse bytes.now)) }
{
    let mut rest = bytes;
    while let [before @ .., last] = rest {
        if !is_blank(*last) {
            return rest;
        }
        rest = before;
    }
    rest
}

fn is_blank(byte: u8) -> bool
    ensures { result ≡ is_blank byte }
{
    byte == SPACE || byte == TAB
}

/// The first item of a list value, without the spaces and tabs round it, and the list value behind its comma; `None`
/// where no comma follows it.
pub fn first_item(value: &[u8]) -> (&[u8], Option<&[u8]>)
    ensures { list_items value.now ≡ result.0.now ∷ items_behind (option_copied result.1) }
{
    match comma_at(value) {
        Some(at) => (trimmed(&value[..at]), Some(&value[at + 1..])),
        None => (trimmed(value), None),
    }
}

// The place of the first comma.
fn comma_at(value: &[u8]) -> Option<usize>
    ensures { result ≡ position (λ byte. byte == 44) value.now }
{
    value.iter().position(|byte| *byte == COMMA)
}

/// Whether the list value has this item, in any case of its ASCII letters.
pub fn has_item(value: &[u8], word: &[u8]) -> bool
    ensures { result ≡ has_item value.now word.now }
{
    value
        .split(|byte| *byte == COMMA)
        .any(|item| is_same_word(trimmed(item), word))
}
