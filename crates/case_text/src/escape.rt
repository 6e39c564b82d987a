// Escapes, which begin with a backslash.
ghost use Rattle.std.specs.Prelude.{◌≡◌, ◌<◌, ◌++◌, IfOk, IfSome, OnOk, option_to_list};
ghost use Rattle.case_text.specs.Escape.{digit_of, IsSaid};
ghost use Rattle.case_text.specs.Reading.{says, goes_on, behind_backslash, step};
ghost use Rattle.case_text.specs.declared.escape.Place.TheVariants as Place;

use side_base::{Blob, NoMemory};
use std::alloc::Global;

/// Where a reader of escapes stands: outside of them, behind a backslash, behind its `x`, or behind the first digit of that.
#[derive(Clone, Copy, Debug, PartialEq, Eq)]
enum Place {
    Outside,
    Backslash,
    Digits,
    Digit(u8),
}

/// What one byte says: a byte or none, and where the reader stands behind it.
#[derive(Clone, Copy, Debug)]
struct Said {
    byte: Option<u8>,
    place: Place,
}

fn digit_in(byte: u8) -> Option<u8>
    ensures value { result ≡ digit_of byte }
    ensures within { IfSome result (λ digit. digit < 16) }
{
    match byte {
        b'0'..=b'9' => Some(byte - b'0'),
        b'a'..=b'f' => Some(byte - b'a' + 10),
        _ => None,
    }
}

fn says(byte: u8) -> Option<Said>
    ensures { result ≡ says byte }
{
    Some(Said {
        byte: Some(byte),
        place: Place::Outside,
    })
}

fn goes_on(place: Place) -> Option<Said>
    ensures { result ≡ goes_on place }
{
    Some(Said { byte: None, place })
}

fn behind_backslash(byte: u8) -> Option<Said>
    ensures { result ≡ behind_backslash byte }
{
    match byte {
        b'n' => says(b'\n'),
        b'r' => says(b'\r'),
        b't' => says(b'\t'),
        b'\\' => says(b'\\'),
        b'\n' => goes_on(Place::Outside),
        b'x' => goes_on(Place::Digits),
        _ => None,
    }
}

// What a byte says at a place, if it may stand there.
fn step(place: Place, byte: u8) -> Option<Said>
    ensures { result ≡ step place byte }
{
    match place {
        Place::Outside => {
            if byte == b'\\' {
                goes_on(Place::Backslash)
            } else {
                says(byte)
            }
        }
        Place::Backslash => behind_backslash(byte),
        Place::Digits => match digit_in(byte) {
            Some(digit) => goes_on(Place::Digit(digit)),
            None => None,
        },
        Place::Digit(high) => match digit_in(byte) {
            Some(low) => says(16 * (high % 16) + low),
            None => None,
        },
    }
}

fn add(said: &mut Blob, byte: Option<u8>) -> Result<(), NoMemory>
    ensures { OnOk result (said.new ≡ said.old ++ option_to_list byte) }
{
    match byte {
        Some(byte) => said.push_byte(byte),
        None => Ok(()),
    }
}

/// What a text says once its escapes are undone: `\n`, `\r` and `\t`, `\\`, `\x` and two digits `0` to `9` or `a` to `f`, which are any
/// byte, and a backslash at a line's end, which joins the next line to it. `None` where a backslash begins none of these.
pub fn unescaped(alloc: Global, text: &[u8]) -> Result<Option<Blob>, NoMemory>
    ensures { IfOk result (λ said. IsSaid text.now said) }
{
    let mut said = Blob::new(alloc);
    let mut place = Place::Outside;
    for byte in text {
        match step(place, *byte) {
            Some(next) => {
                add(&mut said, next.byte)?;
                place = next.place;
            }
            None => return Ok(None),
        }
    }
    match place {
        Place::Outside => Ok(Some(said)),
        _ => Ok(None),
    }
}
