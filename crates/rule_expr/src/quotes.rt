// Texts in quotes.
ghost use Rattle.std.specs.Prelude.{◌≡◌, ◌≢◌, ◌≤◌, ◌<◌, length, ℕ, List, [], Result, Ok, Err};
ghost use Rattle.rule_expr.specs.Parts.{is_escaped};
ghost use Rattle.rule_expr.specs.Quoted.{IsQuoted, IsQuotedFrom, turn};

use rule_value::next_of;
use side_base::{Blob, NoMemory};
use std::alloc::Global;

/// What stands in quotes at the beginning of a text.
#[derive(Drop)]
pub(crate) enum Quoted<'t> {
    /// What it holds, and what follows it.
    Whole(Blob, &'t [u8]),
    /// What stands from the place on where it breaks off.
    Broken(&'t [u8]),
}

/// What a byte of a text in quotes is.
#[derive(Clone, Copy)]
pub(crate) enum Turn {
    /// One of those that it holds.
    Held,
    /// A backslash.
    Backslash,
    /// The quote at its end.
    Closed,
    /// What no backslash may stand before.
    Wrong,
}

fn is_escaped(byte: u8) -> bool
    ensures { result ≡ is_escaped byte }
{
    byte == b'\\' || byte == b'"' || byte == b'\''
}

fn kind_of_byte(quote: u8, escaped: bool, byte: u8) -> Turn
    ensures { result ≡ turn quote escaped byte }
{
    if escaped {
        if is_escaped(byte) {
            Turn::Held
        } else {
            Turn::Wrong
        }
    } else if byte == quote {
        Turn::Closed
    } else if byte == b'\\' {
        Turn::Backslash
    } else {
        Turn::Held
    }
}

/// The text in quotes that begins here.
pub(crate) fn text_in_quotes(alloc: Global, text: &[u8]) -> Result<Quoted<'_>, NoMemory>
    ensures { IsQuoted text.now result }
{
    let mut rest = text;
    match next_of(&mut rest) {
        Some(quote) => inside_quotes(alloc, quote, rest),
        None => Ok(Quoted::Broken(text)),
    }
}

// What the text in these quotes holds.
fn inside_quotes(alloc: Global, quote: u8, text: &[u8]) -> Result<Quoted<'_>, NoMemory>
    ensures { IsQuotedFrom quote text.now result }
{
    let mut held = Blob::new(alloc);
    let mut escaped = false;
    let mut rest = text;
    loop {
        let here = rest;
        match next_of(&mut rest) {
            Some(byte) => match kind_of_byte(quote, escaped, byte) {
                Turn::Held => {
                    held.push_byte(byte)?;
                    escaped = false;
                }
                Turn::Backslash => escaped = true,
                Turn::Closed => return Ok(Quoted::Whole(held, rest)),
                Turn::Wrong => return Ok(Quoted::Broken(here)),
            },
            None => return Ok(Quoted::Broken(here)),
        }
    }
}
