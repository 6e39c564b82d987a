// Values that are written in one piece.
ghost use Rattle.std.specs.Prelude.{◌≡◌, ◌∷◌, false, IfOk};
ghost use Rattle.yaml_lines.specs.LineParts.{good};
ghost use Rattle.yaml_lines.specs.Quoted.{quoted_len, text_within};
ghost use Rattle.yaml_lines.specs.Shown.{leaf_shown, spelled_shown};
ghost use Rattle.yaml_lines.specs.Texts.{texts};
ghost use Rattle.yaml_lines.specs.ValueText.{text_leaf, bare_leaf, plain_leaf, quoted_text_leaf, quoted_leaf, header_keeps, header_tail, brace_leaf, block_leaf, value_by, value_text, opens_block};

use crate::blank::{begins, is_tail_of};
use crate::block::text_of_block;
use crate::flow::flow_of;
use crate::kind::PartKind;
use crate::plain::{
    begins_left_out, holds_colon_space, is_null_text, may_be_plain, trim, without_comment,
};
use crate::quoted::{quoted_length, unquoted};
use crate::value::{Leaf, Spelled};
use std::alloc::{AllocError, Global};

/// The lines below the one that a value stands on, and how many spaces those of a literal block have at least.
#[derive(Clone, Copy)]
pub struct Below<'a> {
    pub least: usize,
    pub lines: &'a [&'a [u8]],
}

fn text_value(alloc: Global, plain: bool, text: Vec<u8>) -> Spelled<Leaf>
    ensures { spelled_shown leaf_shown result ≡ good (text_leaf plain text.items) }
{
    Spelled::Good(Leaf {
        kind: PartKind::Scalar,
        text,
        items: Vec::new(alloc),
        plain,
    })
}

fn bare_value(alloc: Global, kind: PartKind, plain: bool) -> Spelled<Leaf>
    ensures { spelled_shown leaf_shown result ≡ good (bare_leaf kind plain) }
{
    Spelled::Good(Leaf {
        kind,
        text: Vec::new(alloc),
        items: Vec::new(alloc),
        plain,
    })
}

fn plain_value(alloc: Global, text: &[u8]) -> Result<Spelled<Leaf>, AllocError>
    ensures { IfOk result (λ leaf. spelled_shown leaf_shown leaf ≡ plain_leaf text.now) }
{
    if !may_be_plain(text) || holds_colon_space(text) {
        Ok(Spelled::Wrong(false))
    } else if is_null_text(text) {
        Ok(bare_value(alloc, PartKind::Empty, true))
    } else {
        Ok(text_value(alloc, true, Vec::from_slice(alloc, text)?))
    }
}

fn quoted_inside(alloc: Global, double: bool, inside: &[u8]) -> Result<Spelled<Leaf>, AllocError>
    ensures { IfOk result (λ leaf. spelled_shown leaf_shown leaf ≡ quoted_text_leaf (text_within double inside.now)) }
{
    match unquoted(alloc, double, inside)? {
        Some(text) => Ok(text_value(alloc, false, text)),
        None => Ok(Spelled::Wrong(false)),
    }
}

fn quoted_value(alloc: Global, double: bool, bytes: &[u8]) -> Result<Spelled<Leaf>, AllocError>
    ensures { IfOk result (λ leaf. spelled_shown leaf_shown leaf ≡ quoted_leaf double bytes.now (quoted_len double false bytes.now)) }
{
    match quoted_length(double, bytes) {
        Some(count) => {
            if is_tail_of(&bytes[count..]) {
                quoted_inside(alloc, double, &bytes[..count.saturating_sub(1)])
            } else {
                Ok(Spelled::Wrong(false))
            }
        }
        None => Ok(Spelled::Wrong(false)),
    }
}

fn keeps_line_feed(bytes: &[u8]) -> bool
    ensures { result ≡ header_keeps bytes.now }
{
    !begins(bytes, b'-')
}

fn tail_of_header(bytes: &[u8]) -> &[u8]
    ensures { result.now ≡ header_tail bytes.now }
{
    match bytes.split_first() {
        Some((first, others)) if *first == b'-' => others,
        _ => bytes,
    }
}

fn block_value(alloc: Global, bytes: &[u8], below: Below<'_>) -> Result<Spelled<Leaf>, AllocError>
    ensures { IfOk result (λ leaf. spelled_shown leaf_shown leaf ≡ block_leaf bytes.now below.entry.least (texts below.entry.lines.now)) }
{
    if !is_tail_of(tail_of_header(bytes)) {
        return Ok(Spelled::Wrong(false));
    }
    let text = text_of_block(alloc, keeps_line_feed(bytes), below.least, below.lines)?;
    Ok(text_value(alloc, false, text))
}

fn brace_value(alloc: Global, others: &[u8]) -> Spelled<Leaf>
    ensures { spelled_shown leaf_shown result ≡ brace_leaf others.now }
{
    match others.split_first() {
        Some((_, rest)) if is_tail_of(rest) => bare_value(alloc, PartKind::Mapping, false),
        _ => Spelled::Wrong(true),
    }
}

fn value_begun_by(
    alloc: Global,
    byte: u8,
    others: &[u8],
    bytes: &[u8],
    below: Below<'_>,
) -> Result<Spelled<Leaf>, AllocError>
    requires { bytes.now ≡ byte ∷ others.now }
    ensures { IfOk result (λ leaf. spelled_shown leaf_shown leaf ≡ value_by byte others.now below.entry.least (texts below.entry.lines.now)) }
{
    match byte {
        b'"' => quoted_value(alloc, true, others),
        b'\'' => quoted_value(alloc, false, others),
        b'[' => flow_of(alloc, others),
        b'|' => block_value(alloc, others, below),
        _ => {
            if begins_left_out(bytes) {
                Ok(Spelled::LeftOut(byte))
            } else if byte == b'{' {
                Ok(brace_value(alloc, others))
            } else {
                plain_value(alloc, trim(without_comment(bytes)))
            }
        }
    }
}

/// What a value spells, from its first byte on.
#[tactic(auto, unfolding(crate::specs::ValueText::value_text))]
pub(crate) fn value_of(
    alloc: Global,
    bytes: &[u8],
    below: Below<'_>,
) -> Result<Spelled<Leaf>, AllocError>
    ensures { IfOk result (λ leaf. spelled_shown leaf_shown leaf ≡ value_text bytes.now below.entry.least (texts below.entry.lines.now)) }
{
    match bytes.split_first() {
        Some((byte, others)) => value_begun_by(alloc, *byte, others, bytes, below),
        None => Ok(Spelled::Wrong(false)),
    }
}

/// Whether a value begins a literal block.
pub(crate) fn begins_block(bytes: &[u8]) -> bool
    ensures { result ≡ opens_block bytes.now }
{
    match bytes.split_first() {
        Some((byte, others)) => *byte == b'|' && is_tail_of(tail_of_header(others)),
        None => false,
    }
}
