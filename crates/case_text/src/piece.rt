// A text, cut at the lines that begin with a mark.
ghost use Rattle.std.specs.Prelude.{◌≡◌, ◌≤◌, ◌<◌, ◌&&◌, true, map, length, drop, nat_eq, IfOk, IfSome, IsNone};
ghost use Rattle.std.specs.List.{starts_with};
ghost use Rattle.case_text.specs.Piece.{len_before, line_of, piece_shown, EndsLine, IsFirst, Cuts, blank_len, without_blank};

use side_base::NoMemory;
use std::alloc::Global;

/// A part of a text that begins with a marked line: what stands behind the mark on that line, and the lines below it.
#[derive(Clone, Copy, Debug)]
pub struct Piece<'a> {
    pub head: &'a [u8],
    pub text: &'a [u8],
}

// Whether a marked line begins at a place, where a line starts or not.
fn is_marked(text: &[u8], place: usize, starts: bool, mark: &[u8]) -> bool
    requires { place ≤ length text.now }
    ensures { result ≡ (starts && starts_with nat_eq (drop place text.now) mark.now) }
{
    let (_, rest) = text.split_at(place);
    starts && rest.starts_with(mark)
}

// How many bytes stand before the first line that begins with the mark.
fn len_before_mark(text: &[u8], mark: &[u8]) -> usize
    ensures value { result ≡ len_before mark.now true text.now }
    ensures within { result ≤ length text.now }
{
    let mut starts = true;
    for place in 0..text.len() {
        if is_marked(text, place, starts, mark) {
            return place;
        }
        starts = text[place] == b'\n';
    }
    text.len()
}

fn line_len(text: &[u8]) -> usize
    ensures value { result ≡ length (line_of text.now) }
    ensures within { result ≤ length text.now }
{
    text.iter().take_while(|byte| **byte != b'\n').count()
}

// A line without its end, and what stands below it.
fn cut_line(text: &[u8]) -> (&[u8], &[u8])
    ensures line { result.0.now ≡ line_of text.now }
    ensures below { EndsLine text.now result.0.now result.1.now }
    ensures shorter { length result.1.now ≤ length text.now }
{
    let (line, rest) = text.split_at(line_len(text));
    match rest.split_first() {
        Some((_, below)) => (line, below),
        None => (line, rest),
    }
}

// The first piece, and what is left behind it.
fn next_piece<'a>(text: &'a [u8], mark: &[u8]) -> Option<(Piece<'a>, &'a [u8])>
    requires { 0 < length mark.now }
    ensures none { IsNone result → len_before mark.now true text.now ≡ length text.now }
    ensures first { IfSome result (λ found. IsFirst mark.now text.now (piece_shown found.0) found.1.now) }
    ensures shorter { IfSome result (λ found. length found.1.now < length text.now) }
{
    let (_, marked) = text.split_at(len_before_mark(text, mark));
    if !marked.starts_with(mark) {
        return None;
    }
    let (_, line) = marked.split_at(mark.len());
    let (head, below) = cut_line(line);
    let (text, rest) = below.split_at(len_before_mark(below, mark));
    Some((Piece { head, text }, rest))
}

/// The pieces of a text, in order: each begins with a line that begins with the mark, and reaches to the next such line. What
/// stands before the first is passed over.
pub fn pieces<'a>(alloc: Global, text: &'a [u8], mark: &[u8]) -> Result<Vec<Piece<'a>>, NoMemory>
    requires { 0 < length mark.now }
    ensures { IfOk result (λ all. Cuts mark.now text.now (map piece_shown all.items)) }
{
    let mut all = Vec::new(alloc);
    let mut rest = text;
    while let Some((piece, behind)) = next_piece(rest, mark) {
        all.push(piece)?;
        rest = behind;
    }
    Ok(all)
}

fn blanks_at_end(text: &[u8]) -> usize
    ensures value { result ≡ blank_len text.now }
    ensures within { result ≤ length text.now }
{
    text.iter().rev().take_while(|byte| **byte == b'\n').count()
}

/// A text without the empty lines at its end; it is empty where all its lines are.
pub fn without_blank_end(text: &[u8]) -> &[u8]
    ensures { result.now ≡ without_blank text.now }
{
    let blank = blanks_at_end(text);
    if blank == text.len() {
        &[]
    } else if blank == 0 {
        text
    } else {
        let (kept, _) = text.split_at(text.len() - (blank - 1));
        kept
    }
}
