// Sequences in brackets.
ghost use Rattle.std.specs.Prelude.{◌≡◌, ◌≤◌, ◌&&◌, ◌∷◌, not, false, length, map, option_map, IfOk, OnOk};
ghost use Rattle.std.specs.List.{list_any};
ghost use Rattle.yaml_lines.specs.Flow.{bare_found, item_found, within_after, is_bracket, plain_scalar, is_plain_item, quoted_scalar, quoted_item, item_by, gather, closed_by, sequence_leaf, sequence_by, trimmed_item, first_of_item, item_text, flow_leaf};
ghost use Rattle.yaml_lines.specs.ItemLength.{item_len};
ghost use Rattle.yaml_lines.specs.Quoted.{quoted_len, text_within};
ghost use Rattle.yaml_lines.specs.Gathering.{gathering_shown, Brackets};
ghost use Rattle.yaml_lines.specs.Shown.{item_shown, leaf_shown, spelled_shown};

use crate::blank::{HASH, SPACE, is_tail_of, is_white_byte, leading_whites};
use crate::found::Found;
use crate::kind::PartKind;
use crate::plain::{begins_left_out, holds_colon_space, is_null_text, may_be_plain, trim};
use crate::quoted::{quoted_length, unquoted};
use crate::value::{Item, Leaf, Spelled};
use std::alloc::{AllocError, Global};

/// Where a reader stands within an item in brackets.
#[derive(Clone, Copy, Debug)]
pub enum Within {
    /// Before its first byte.
    Before { after_space: bool },
    /// In a plain text, or behind a closing quote.
    Bare { after_space: bool },
    /// Within double quotes.
    Double { escaped: bool },
    /// Within single quotes.
    Single,
    /// Behind a single quote that ends them or is the first of two.
    Closing,
}

fn look_for_bare_end(after_space: bool, byte: u8) -> Found
    ensures { result ≡ bare_found after_space byte }
{
    if byte == b',' || byte == b']' || (after_space && byte == HASH) {
        Found::Here
    } else {
        Found::Later
    }
}

fn look_for_end(within: Within, byte: u8) -> Found
    ensures { result ≡ item_found within byte }
{
    match within {
        Within::Before { after_space } => look_for_bare_end(after_space, byte),
        Within::Bare { after_space } => look_for_bare_end(after_space, byte),
        Within::Double { escaped: _ } => Found::Later,
        Within::Single => Found::Later,
        Within::Closing => {
            if byte == b'\'' {
                Found::Later
            } else {
                look_for_bare_end(false, byte)
            }
        }
    }
}

fn next_within(within: Within, byte: u8) -> Within
    ensures { result ≡ within_after within byte }
{
    match within {
        Within::Before { after_space: _ } => {
            if byte == b'"' {
                Within::Double { escaped: false }
            } else if byte == b'\'' {
                Within::Single
            } else if is_white_byte(byte) {
                Within::Before {
                    after_space: byte == SPACE,
                }
            } else {
                Within::Bare { after_space: false }
            }
        }
        Within::Bare { after_space: _ } => Within::Bare {
            after_space: byte == SPACE,
        },
        Within::Double { escaped } => {
            if escaped {
                Within::Double { escaped: false }
            } else if byte == b'"' {
                Within::Bare { after_space: false }
            } else {
                Within::Double {
                    escaped: byte == b'\\',
                }
            }
        }
        Within::Single => {
            if byte == b'\'' {
                Within::Closing
            } else {
                Within::Single
            }
        }
        Within::Closing => {
            if byte == b'\'' {
                Within::Single
            } else {
                Within::Bare {
                    after_space: byte == SPACE,
                }
            }
        }
    }
}

// How many bytes the item that begins here has, up to a comma, a closing bracket, a comment or the end.
fn item_length(bytes: &[u8]) -> usize
    ensures exact { result ≡ item_len (Within.Before false) bytes.now }
    ensures inside { result ≤ length bytes.now }
{
    let mut within = Within::Before { after_space: false };
    let mut count = 0;
    let mut left = bytes;
    while let Some((byte, others)) = left.split_first() {
        match look_for_end(within, *byte) {
            Found::Later => {
                within = next_within(within, *byte);
                count += 1;
                left = others;
            }
            _ => return count,
        }
    }
    count
}

fn is_bracket_byte(byte: u8) -> bool
    ensures { result ≡ is_bracket byte }
{
    byte == b'[' || byte == b']' || byte == b'{' || byte == b'}'
}

fn holds_bracket(text: &[u8]) -> bool
    ensures { result ≡ list_any is_bracket text.now }
{
    text.iter().any(|byte| is_bracket_byte(*byte))
}

fn is_item_text(text: &[u8]) -> bool
    ensures { result ≡ is_plain_item text.now }
{
    may_be_plain(text) && !holds_colon_space(text) && !holds_bracket(text)
}

fn text_item(alloc: Global, text: &[u8]) -> Result<Item, AllocError>
    ensures { IfOk result (λ item. item_shown item ≡ plain_scalar text.now) }
{
    if is_null_text(text) {
        return Ok(Item {
            kind: PartKind::Empty,
            text: Vec::new(alloc),
        });
    }
    Ok(Item {
        kind: PartKind::Scalar,
        text: Vec::from_slice(alloc, text)?,
    })
}

// A text in quotes, of which this stands behind the opening one, and nothing behind it.
fn quoted_item_of(alloc: Global, double: bool, bytes: &[u8]) -> Result<Spelled<Item>, AllocError>
    ensures { IfOk result (λ item. spelled_shown item_shown item ≡ quoted_item double bytes.now (quoted_len double false bytes.now)) }
{
    match quoted_length(double, bytes) {
        Some(count) => {
            if bytes[count..].is_empty() {
                quoted_text_of(alloc, double, &bytes[..count.saturating_sub(1)])
            } else {
                Ok(Spelled::Wrong(false))
            }
        }
        None => Ok(Spelled::Wrong(false)),
    }
}

fn quoted_text_of(alloc: Global, double: bool, inside: &[u8]) -> Result<Spelled<Item>, AllocError>
    ensures { IfOk result (λ item. spelled_shown item_shown item ≡ quoted_scalar (text_within double inside.now)) }
{
    match unquoted(alloc, double, inside)? {
        Some(text) => Ok(Spelled::Good(Item {
            kind: PartKind::Scalar,
            text,
        })),
        None => Ok(Spelled::Wrong(false)),
    }
}

// An item without the spaces and tabs round it.
fn trimmed_item_of(alloc: Global, text: &[u8]) -> Result<Spelled<Item>, AllocError>
    ensures { IfOk result (λ item. spelled_shown item_shown item ≡ trimmed_item text.now) }
{
    match text.split_first() {
        Some((byte, others)) => item_begun_by(alloc, *byte, others, text),
        None => Ok(Spelled::Wrong(false)),
    }
}

fn item_begun_by(
    alloc: Global,
    byte: u8,
    others: &[u8],
    text: &[u8],
) -> Result<Spelled<Item>, AllocError>
    requires { text.now ≡ byte ∷ others.now }
    ensures { IfOk result (λ item. spelled_shown item_shown item ≡ item_by byte others.now) }
{
    if byte == b'"' {
        quoted_item_of(alloc, true, others)
    } else if byte == b'\'' {
        quoted_item_of(alloc, false, others)
    } else if is_item_text(text) {
        Ok(Spelled::Good(text_item(alloc, text)?))
    } else {
        Ok(Spelled::Wrong(false))
    }
}

fn first_byte_of(text: &[u8]) -> u8
    ensures { result ≡ first_of_item text.now }
{
    match text.split_first() {
        Some((byte, _)) => *byte,
        None => 0,
    }
}

fn item_of(alloc: Global, bytes: &[u8]) -> Result<Spelled<Item>, AllocError>
    ensures { IfOk result (λ item. spelled_shown item_shown item ≡ item_text bytes.now) }
{
    let text = &bytes[leading_whites(bytes)..];
    if begins_left_out(text) {
        return Ok(Spelled::LeftOut(first_byte_of(text)));
    }
    trimmed_item_of(alloc, trim(text))
}

/// Items one after the other: the good ones, the first byte that begins what is left out, and whether one is wrong.
#[derive(Drop)]
struct Gathering {
    items: Vec<Item>,
    out: Option<u8>,
    bad: bool,
}

impl Gathering {
    // One item more.
    fn add(&mut self, item: Spelled<Item>) -> Result<(), AllocError>
        ensures { OnOk result (gathering_shown self.new ≡ gather (gathering_shown self.old) (spelled_shown item_shown item)) }
    {
        match item {
            Spelled::Good(item) => self.items.push(item)?,
            Spelled::LeftOut(byte) => self.out = Some(self.out.unwrap_or(byte)),
            Spelled::Wrong(_) => self.bad = true,
        }
        Ok(())
    }
}

/// A sequence in brackets: its items, and what follows the closing bracket.
#[derive(Drop)]
struct Bracketed<'a> {
    gathering: Gathering,
    rest: Option<&'a [u8]>,
}

fn gather_items(alloc: Global, bytes: &[u8]) -> Result<Bracketed<'_>, AllocError>
    ensures { IfOk result (λ b. Brackets b bytes.now) }
{
    let mut gathering = Gathering {
        items: Vec::new(alloc),
        out: None,
        bad: false,
    };
    let mut left = bytes;
    loop {
        let (piece, after) = left.split_at(item_length(left));
        gathering.add(item_of(alloc, piece)?)?;
        match after.split_first() {
            Some((byte, others)) => {
                if *byte == b',' {
                    left = others;
                } else if *byte == b']' {
                    return Ok(Bracketed {
                        gathering,
                        rest: Some(others),
                    });
                } else {
                    return Ok(Bracketed {
                        gathering,
                        rest: None,
                    });
                }
            }
            None => {
                return Ok(Bracketed {
                    gathering,
                    rest: None,
                });
            }
        }
    }
}

fn is_closed(rest: Option<&[u8]>) -> bool
    ensures { result ≡ closed_by (option_map (λ r. r.now) rest.entry) }
{
    match rest {
        Some(rest) => is_tail_of(rest),
        None => false,
    }
}

fn sequence_of(alloc: Global, items: Vec<Item>) -> Leaf
    ensures { leaf_shown result ≡ sequence_leaf (map item_shown items.items) }
{
    Leaf {
        kind: PartKind::Sequence,
        text: Vec::new(alloc),
        items,
        plain: false,
    }
}

fn sequence_from(alloc: Global, gathering: Gathering, closed: bool) -> Spelled<Leaf>
    ensures { spelled_shown leaf_shown result ≡ sequence_by (gathering_shown gathering) closed }
{
    match gathering.out {
        Some(byte) => Spelled::LeftOut(byte),
        None => {
            if gathering.bad || !closed {
                Spelled::Wrong(true)
            } else {
                Spelled::Good(sequence_of(alloc, gathering.items))
            }
        }
    }
}

/// What the bytes behind an opening bracket spell.
#[tactic(auto, unfolding(crate::specs::Flow::flow_leaf))]
pub(crate) fn flow_of(alloc: Global, bytes: &[u8]) -> Result<Spelled<Leaf>, AllocError>
    ensures { IfOk result (λ leaf. spelled_shown leaf_shown leaf ≡ flow_leaf bytes.now) }
{
    let inside = &bytes[leading_whites(bytes)..];
    match inside.split_first() {
        Some((byte, others)) if *byte == b']' => {
            if is_tail_of(others) {
                Ok(Spelled::Good(sequence_of(alloc, Vec::new(alloc))))
            } else {
                Ok(Spelled::Wrong(true))
            }
        }
        _ => {
            let found = gather_items(alloc, bytes)?;
            let closed = is_closed(found.rest);
            Ok(sequence_from(alloc, found.gathering, closed))
        }
    }
}
