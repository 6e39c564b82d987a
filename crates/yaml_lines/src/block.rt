// Literal blocks.
ghost use Rattle.std.specs.Prelude.{◌≡◌, ◌++◌, ◌≤◌, length, drop, replicate, IfOk};
ghost use Rattle.yaml_lines.specs.Block.{own_indent, block_indent, in_block, block_lines, block_below, blank_lead, is_empty_line, without_empty_end, lines_text, text_behind, block_text};
ghost use Rattle.yaml_lines.specs.Block.{text_of_block as text_below};
ghost use Rattle.yaml_lines.specs.Texts.{texts};

use crate::blank::{is_blank, is_mark_line, leading_spaces};
use std::alloc::{AllocError, Global};

// The spaces of the first line that isn't of spaces alone.
fn first_indent(lines: &[&[u8]]) -> usize
    ensures { result ≡ own_indent (texts lines.now) }
{
    for line in lines {
        if !is_blank(line) {
            return leading_spaces(line);
        }
    }
    0
}

fn indent_of_block(least: usize, lines: &[&[u8]]) -> usize
    ensures { result ≡ block_indent least (texts lines.now) }
{
    let own = first_indent(lines);
    if own < least { least } else { own }
}

fn belongs(indent: usize, line: &[u8]) -> bool
    ensures { result ≡ in_block indent line.now }
{
    is_blank(line) || (indent <= leading_spaces(line) && !is_mark_line(line))
}

// The lines of a block of this indent.
fn lines_of_block<'a>(indent: usize, lines: &'a [&'a [u8]]) -> &'a [&'a [u8]]
    ensures { texts result.now ≡ block_lines indent (texts lines.now) }
{
    for (count, line) in lines.iter().enumerate() {
        if !belongs(indent, line) {
            return &lines[..count];
        }
    }
    lines
}

/// The lines of the block that begins here, whose lines have so many spaces at least.
pub(crate) fn lines_below<'a>(least: usize, lines: &'a [&'a [u8]]) -> &'a [&'a [u8]]
    ensures { texts result.now ≡ block_below least (texts lines.now) }
{
    lines_of_block(indent_of_block(least, lines), lines)
}

// How many lines of spaces alone come first.
fn blank_lines(lines: &[&[u8]]) -> usize
    ensures exact { result ≡ blank_lead (texts lines.now) }
    ensures inside { result ≤ length lines.now }
{
    for (count, line) in lines.iter().enumerate() {
        if !is_blank(line) {
            return count;
        }
    }
    lines.len()
}

fn is_empty_in(indent: usize, line: &[u8]) -> bool
    ensures { result ≡ is_empty_line indent line.now }
{
    is_blank(line) && line.len() <= indent
}

// Without the empty lines at the end.
fn without_empty_lines<'a>(indent: usize, block: &'a [&'a [u8]]) -> &'a [&'a [u8]]
    ensures { texts result.now ≡ without_empty_end indent (texts block.now) }
{
    let mut count = block.len();
    while count > 0 {
        if !is_empty_in(indent, block[count - 1]) {
            return &block[..count];
        }
        count -= 1;
    }
    &block[..0]
}

fn behind_indent(indent: usize, line: &[u8]) -> &[u8]
    ensures { result.now ≡ drop indent line.now }
{
    &line[indent.min(line.len())..]
}

// What stands behind the indent of each line, and a line feed, behind what is there.
fn push_lines(mut text: Vec<u8>, indent: usize, lines: &[&[u8]]) -> Result<Vec<u8>, AllocError>
    ensures { IfOk result (λ all. all.items ≡ text.items ++ lines_text indent (texts lines.now)) }
{
    for line in lines {
        text.extend_from_slice(behind_indent(indent, line))?;
        text.push(b'\n')?;
    }
    Ok(text)
}

fn line_feeds(alloc: Global, count: usize) -> Result<Vec<u8>, AllocError>
    ensures { IfOk result (λ text. text.items ≡ replicate count 10) }
{
    let mut text = Vec::new(alloc);
    text.resize(count, b'\n')?;
    Ok(text)
}

// So many empty lines, and then the lines, if there are any.
fn text_of_lines(
    alloc: Global,
    empties: usize,
    indent: usize,
    lines: &[&[u8]],
) -> Result<Vec<u8>, AllocError>
    ensures { IfOk result (λ text. text.items ≡ text_behind empties indent (texts lines.now)) }
{
    if lines.is_empty() {
        return Ok(Vec::new(alloc));
    }
    let text = line_feeds(alloc, empties)?;
    push_lines(text, indent, lines)
}

fn text_of(alloc: Global, indent: usize, block: &[&[u8]]) -> Result<Vec<u8>, AllocError>
    ensures { IfOk result (λ text. text.items ≡ text_below indent (texts block.now)) }
{
    let empties = blank_lines(block);
    let lines = without_empty_lines(indent, &block[empties..]);
    text_of_lines(alloc, empties, indent, lines)
}

/// The text of a block, with its last line feed or without.
pub(crate) fn text_of_block(
    alloc: Global,
    keeps: bool,
    least: usize,
    lines: &[&[u8]],
) -> Result<Vec<u8>, AllocError>
    ensures { IfOk result (λ text. text.items ≡ block_text keeps least (texts lines.now)) }
{
    let mut text = text_of(
        alloc,
        indent_of_block(least, lines),
        lines_below(least, lines),
    )?;
    if !keeps {
        text.truncate(text.len().saturating_sub(1));
    }
    Ok(text)
}
