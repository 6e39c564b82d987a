// A line that has content, cut into its parts.
ghost use Rattle.std.specs.Prelude.{◌≡◌, ◌∷◌, ◌+◌, ◌<◌, ◌≤◌, ◌^◌, ◌&&◌, IsTrue, false, length, drop, Some, None, option_map, IfOk, OnOk, IfSome};
ghost use Rattle.yaml_lines.specs.LineParts.{Name, Value};
ghost use Rattle.yaml_lines.specs.LineShown.{name_shown, value_shown, parts_shown, name_end_shown, behind_shown, cut_shown, line_shown};
ghost use Rattle.yaml_lines.specs.LineText.{lines_below as count_of_block, first_byte, quoted_name, colon_behind, quoted_name_at, plain_name, plain_name_at, name_by, name_at, NameAt, block_from, value_at, value_behind, item_named, item_cut, line_named, is_item, cut, holder_column, cut_line, line_with};
ghost use Rattle.yaml_lines.specs.Blank.{spaces_of};
ghost use Rattle.yaml_lines.specs.Plain.{ends_name, colon_place};
ghost use Rattle.yaml_lines.specs.Quoted.{quoted_len, text_within};
ghost use Rattle.yaml_lines.specs.Shown.{spelled_shown};
ghost use Rattle.yaml_lines.specs.Texts.{texts};

use crate::blank::{SPACE, TAB, begins, is_tail_of, leading_spaces, leading_whites};
use crate::block::lines_below;
use crate::plain::{begins_left_out, may_be_plain, name_colon, trim};
use crate::quoted::{quoted_length, unquoted};
use crate::scalar::{Below, begins_block, value_of};
use crate::value::{Leaf, Spelled};
use std::alloc::{AllocError, Global};

/// A name, with the column and the byte with which it begins.
#[derive(Drop)]
pub struct Name {
    pub column: usize,
    pub first: u8,
    pub text: Spelled<Vec<u8>>,
}

/// A value, with the column and the byte with which it begins.
#[derive(Drop)]
pub struct Value {
    pub column: usize,
    pub first: u8,
    pub leaf: Spelled<Leaf>,
}

/// What a line is.
#[derive(Drop)]
pub enum Parts {
    /// An item, with the column of its dash, which may have a name and a value.
    Dashed {
        column: usize,
        name: Option<Name>,
        value: Option<Value>,
    },
    /// A member, which may have a value.
    Member {
        name: Name,
        value: Option<Value>,
    },
    /// A value alone.
    Alone {
        value: Value,
    },
}

/// A line that has content.
#[derive(Drop)]
pub struct Line {
    pub number: usize,
    /// It is the first one of its document.
    pub starts: bool,
    /// A tab stands in its indent.
    pub tab: bool,
    pub parts: Parts,
}

/// A name, and how many bytes there are up to its colon and with it.
#[derive(Drop)]
pub struct NameEnd {
    pub text: Spelled<Vec<u8>>,
    pub behind: usize,
}

/// What stands behind a colon, and the indent that the lines of a literal block below it have at least.
#[derive(Drop)]
pub struct Behind {
    pub value: Option<Value>,
    pub block: Option<usize>,
}

/// The parts of a line, whether a tab stands in the indent of the mapping behind its dash, and its literal block.
#[derive(Drop)]
pub struct LineCut {
    pub tab: bool,
    pub parts: Parts,
    pub block: Option<usize>,
}

fn first_of(bytes: &[u8]) -> u8
    ensures { result ≡ first_byte bytes.now }
{
    match bytes.split_first() {
        Some((first, _)) => *first,
        None => 0,
    }
}

fn name_in_quotes(
    alloc: Global,
    double: bool,
    inside: &[u8],
) -> Result<Spelled<Vec<u8>>, AllocError>
    ensures { IfOk result (λ name. spelled_shown (λ t. t.items) name ≡ quoted_name (text_within double inside.now)) }
{
    match unquoted(alloc, double, inside)? {
        Some(text) => Ok(Spelled::Good(text)),
        None => Ok(Spelled::Wrong(false)),
    }
}

fn has_colon_behind(bytes: &[u8]) -> bool
    ensures exact { result ≡ colon_behind bytes.now }
    ensures inside { IsTrue result → spaces_of bytes.now < length bytes.now }
{
    let rest = &bytes[leading_spaces(bytes)..];
    match rest.split_first() {
        Some((first, others)) => *first == b':' && is_end_of_name(others),
        None => false,
    }
}

fn is_end_of_name(bytes: &[u8]) -> bool
    ensures { result ≡ ends_name bytes.now }
{
    bytes.is_empty() || begins(bytes, SPACE)
}

fn quoted_name_of(alloc: Global, double: bool, others: &[u8]) -> Result<Option<NameEnd>, AllocError>
    ensures exact { IfOk result (λ name. option_map name_end_shown name ≡ quoted_name_at double others.now (quoted_len double false others.now)) }
    ensures inside { IfOk result (λ name. IfSome name (λ n. n.behind ≤ length others.now + 1)) }
{
    match quoted_length(double, others) {
        Some(count) => {
            let rest = &others[count..];
            if !has_colon_behind(rest) {
                return Ok(None);
            }
            let text = name_in_quotes(alloc, double, &others[..count.saturating_sub(1)])?;
            Ok(Some(NameEnd {
                text,
                behind: 1 + count + leading_spaces(rest) + 1,
            }))
        }
        None => Ok(None),
    }
}

fn plain_name_text(alloc: Global, bytes: &[u8], text: &[u8]) -> Result<Spelled<Vec<u8>>, AllocError>
    ensures { IfOk result (λ name. spelled_shown (λ t. t.items) name ≡ plain_name bytes.now text.now) }
{
    if begins_left_out(bytes) {
        Ok(Spelled::LeftOut(first_of(bytes)))
    } else if may_be_plain(text) {
        Ok(Spelled::Good(Vec::from_slice(alloc, text)?))
    } else {
        Ok(Spelled::Wrong(false))
    }
}

fn plain_name_of(alloc: Global, bytes: &[u8]) -> Result<Option<NameEnd>, AllocError>
    ensures exact { IfOk result (λ name. option_map name_end_shown name ≡ plain_name_at bytes.now (colon_place false bytes.now)) }
    ensures inside { IfOk result (λ name. IfSome name (λ n. n.behind ≤ length bytes.now)) }
{
    match name_colon(bytes) {
        Some(place) => {
            let text = plain_name_text(alloc, bytes, trim(&bytes[..place]))?;
            Ok(Some(NameEnd {
                text,
                behind: place + 1,
            }))
        }
        None => Ok(None),
    }
}

fn name_begun_by(
    alloc: Global,
    byte: u8,
    others: &[u8],
    bytes: &[u8],
) -> Result<Option<NameEnd>, AllocError>
    requires { bytes.now ≡ byte ∷ others.now }
    ensures exact { IfOk result (λ name. option_map name_end_shown name ≡ name_by byte others.now) }
    ensures inside { IfOk result (λ name. IfSome name (λ n. n.behind ≤ length bytes.now)) }
{
    match byte {
        b'"' => quoted_name_of(alloc, true, others),
        b'\'' => quoted_name_of(alloc, false, others),
        b'[' | b'{' | b'|' => Ok(None),
        _ => plain_name_of(alloc, bytes),
    }
}

// The name with which the bytes begin.
#[tactic(auto, unfolding(crate::specs::LineText::name_at))]
fn name_of(alloc: Global, bytes: &[u8]) -> Result<Option<NameEnd>, AllocError>
    ensures exact { IfOk result (λ name. option_map name_end_shown name ≡ name_at bytes.now) }
    ensures inside { IfOk result (λ name. IfSome name (λ n. n.behind ≤ length bytes.now)) }
{
    match bytes.split_first() {
        Some((byte, others)) => name_begun_by(alloc, *byte, others, bytes),
        None => Ok(None),
    }
}

fn block_at(opens: bool, least: usize) -> Option<usize>
    ensures { result ≡ block_from opens least }
{
    if opens { Some(least) } else { None }
}

// A value that begins in this column.
fn value_from(
    alloc: Global,
    column: usize,
    bytes: &[u8],
    below: Below<'_>,
) -> Result<Value, AllocError>
    ensures { IfOk result (λ v. value_shown v ≡ value_at column below.entry.least bytes.now (texts below.entry.lines.now)) }
{
    Ok(Value {
        column,
        first: first_of(bytes),
        leaf: value_of(alloc, bytes, below)?,
    })
}

// What stands behind a colon.
#[tactic(auto, unfolding(crate::specs::LineText::value_behind))]
fn behind_colon(
    alloc: Global,
    column: usize,
    bytes: &[u8],
    below: Below<'_>,
) -> Result<Behind, AllocError>
    requires { column + length bytes.now < 2 ^ 64 }
    ensures { IfOk result (λ b. behind_shown b ≡ value_behind column below.entry.least bytes.now (texts below.entry.lines.now)) }
{
    if is_tail_of(bytes) {
        return Ok(Behind {
            value: None,
            block: None,
        });
    }
    let count = leading_whites(bytes);
    let text = &bytes[count..];
    let least = below.least;
    let value = value_from(alloc, column + count, text, below)?;
    Ok(Behind {
        value: Some(value),
        block: block_at(begins_block(text), least),
    })
}

fn name_from(column: usize, bytes: &[u8], text: Spelled<Vec<u8>>) -> Name
    ensures { name_shown result ≡ record { column = column; first = first_byte bytes.now; text = spelled_shown (λ t. t.items) text } }
{
    Name {
        column,
        first: first_of(bytes),
        text,
    }
}

// An item that begins a mapping or has a value on the line of its dash.
fn item_with(
    alloc: Global,
    tab: bool,
    dash: usize,
    column: usize,
    bytes: &[u8],
    lines: &[&[u8]],
) -> Result<LineCut, AllocError>
    requires { column + length bytes.now < 2 ^ 64 }
    ensures { IfOk result (λ c. cut_shown c ≡ item_named tab dash column bytes.now (texts lines.now) (name_at bytes.now)) }
{
    match name_of(alloc, bytes)? {
        Some(end) => {
            let below = Below {
                least: column,
                lines,
            };
            let behind = behind_colon(alloc, column + end.behind, &bytes[end.behind..], below)?;
            Ok(LineCut {
                tab,
                parts: Parts::Dashed {
                    column: dash,
                    name: Some(name_from(column, bytes, end.text)),
                    value: behind.value,
                },
                block: behind.block,
            })
        }
        None => {
            let below = Below { least: dash, lines };
            let value = value_from(alloc, column, bytes, below)?;
            Ok(LineCut {
                tab: false,
                parts: Parts::Dashed {
                    column: dash,
                    name: None,
                    value: Some(value),
                },
                block: block_at(begins_block(bytes), dash),
            })
        }
    }
}

// What stands behind a dash.
#[tactic(auto, unfolding(crate::specs::LineText::item_cut))]
fn item_behind(
    alloc: Global,
    dash: usize,
    bytes: &[u8],
    lines: &[&[u8]],
) -> Result<LineCut, AllocError>
    requires { dash + 1 + length bytes.now < 2 ^ 64 }
    ensures { IfOk result (λ c. cut_shown c ≡ item_cut dash bytes.now (texts lines.now)) }
{
    if is_tail_of(bytes) {
        return Ok(LineCut {
            tab: false,
            parts: Parts::Dashed {
                column: dash,
                name: None,
                value: None,
            },
            block: None,
        });
    }
    let count = leading_whites(bytes);
    let tab = count != leading_spaces(bytes);
    item_with(alloc, tab, dash, dash + 1 + count, &bytes[count..], lines)
}

fn line_without_dash(
    alloc: Global,
    column: usize,
    bytes: &[u8],
    below: Below<'_>,
) -> Result<LineCut, AllocError>
    requires { column + length bytes.now < 2 ^ 64 }
    ensures { IfOk result (λ c. cut_shown c ≡ line_named column below.entry.least bytes.now (texts below.entry.lines.now) (name_at bytes.now)) }
{
    match name_of(alloc, bytes)? {
        Some(end) => {
            let inner = Below {
                least: column,
                lines: below.lines,
            };
            let behind = behind_colon(alloc, column + end.behind, &bytes[end.behind..], inner)?;
            Ok(LineCut {
                tab: false,
                parts: Parts::Member {
                    name: name_from(column, bytes, end.text),
                    value: behind.value,
                },
                block: behind.block,
            })
        }
        None => {
            let least = below.least;
            let value = value_from(alloc, column, bytes, below)?;
            Ok(LineCut {
                tab: false,
                parts: Parts::Alone { value },
                block: block_at(begins_block(bytes), least),
            })
        }
    }
}

// Content that begins in this column.
#[tactic(auto, unfolding(crate::specs::LineText::cut))]
fn cut_content(
    alloc: Global,
    column: usize,
    bytes: &[u8],
    below: Below<'_>,
) -> Result<LineCut, AllocError>
    requires { column + length bytes.now < 2 ^ 64 }
    ensures { IfOk result (λ c. cut_shown c ≡ cut column below.entry.least bytes.now (texts below.entry.lines.now)) }
{
    match bytes.split_first() {
        Some((first, others)) if *first == b'-' && is_end_of_name(others) => {
            item_behind(alloc, column, others, below.lines)
        }
        _ => line_without_dash(alloc, column, bytes, below),
    }
}

/// Cuts a line that has content.
pub fn cut_of_line(alloc: Global, raw: &[u8], below: Below<'_>) -> Result<LineCut, AllocError>
    ensures { IfOk result (λ c. cut_shown c ≡ cut_line below.entry.least raw.now (texts below.entry.lines.now)) }
{
    let count = leading_spaces(raw);
    cut_content(alloc, count + 1, &raw[count..], below)
}

/// The line of this number, of which the cut was made.
pub fn line_from(number: usize, starts: bool, raw: &[u8], cut: LineCut) -> Line
    ensures { line_shown result ≡ line_with number starts raw.now (cut_shown cut) }
{
    Line {
        number,
        starts,
        tab: begins(&raw[leading_spaces(raw)..], TAB) || cut.tab,
        parts: cut.parts,
    }
}

/// The column of the part that a value on the next lines would stand in.
pub fn column_of_holder(least: usize, parts: &Parts) -> usize
    ensures { result ≡ holder_column least (parts_shown parts.now) }
{
    match parts {
        Parts::Dashed {
            column,
            name,
            value: _,
        } => match name {
            Some(name) => name.column,
            None => *column,
        },
        Parts::Member { name, value: _ } => name.column,
        Parts::Alone { value: _ } => least,
    }
}

/// How many lines below belong to the literal block.
pub fn count_below(lines: &[&[u8]], block: Option<usize>) -> usize
    ensures exact { result ≡ count_of_block (texts lines.now) block }
    ensures inside { result ≤ length lines.now }
{
    match block {
        Some(least) => lines_below(least, lines).len(),
        None => 0,
    }
}
