// The texts that escapes spell, each in one piece.
ghost use Rattle.std.specs.Prelude.{◌≡◌, ◌+◌, ◌-◌, ◌++◌, ◌∷◌, [], IsTrue, IfOk, take, drop};
ghost use Rattle.json_text.specs.Unescape.{unescaped};
ghost use Rattle.json_text.specs.Told.{AddsText, IsPlaceOf, TextsAreWhole, TextsStand, piece, told_at};

use crate::packed::Packed;
use crate::shown::text_inside;
use byte_lanes::first_special;
use json_lexemes::push_unescaped;
use side_base::{Blob, NoMemory};
use std::alloc::{AllocError, Global};

/// Where a text stands among those that escapes spell: `after` is one more than the place after its end, and 0 of a text that
/// is as its string is written.
#[derive(Clone, Copy, Debug)]
pub struct Place {
    start: u32,
    after: u32,
}

/// The texts that escapes spell, one behind the other, and for each value of a document the place of its text. Of a document
/// that has no such text there are no places.
#[derive(Drop)]
pub struct Told {
    places: Vec<Place>,
    texts: Blob,
}

/// The texts of these values that escapes spell.
pub(crate) fn texts_told(alloc: Global, bytes: &[u8], nodes: &[Packed]) -> Result<Told, NoMemory>
    ensures { IfOk result (λ told. TextsAreWhole bytes.now nodes.now told) }
{
    let mut told = Told {
        places: Vec::new(alloc),
        texts: Blob::new(alloc),
    };
    if texts_stand(bytes, nodes) {
        return Ok(told);
    }
    for i in 0..nodes.len() {
        match add(&mut told, text_inside(bytes, nodes[i].unpacked().spot)) {
            Ok(()) => {}
            Err(error) => return Err(error),
        }
    }
    Ok(told)
}

// Whether each text is as its string is written.
fn texts_stand(bytes: &[u8], nodes: &[Packed]) -> bool
    ensures { IsTrue result → TextsStand bytes.now nodes.now }
{
    for i in 0..nodes.len() {
        if !stands_for_itself(text_inside(bytes, nodes[i].unpacked().spot)) {
            return false;
        }
    }
    true
}

// Whether the inside of a string has no escape.
#[tactic(auto, using(json_lexemes::proofs::CopiedRuns::all_stand))]
fn stands_for_itself(inside: &[u8]) -> bool
    ensures { IsTrue result → unescaped inside.now ≡ inside.now }
{
    first_special(inside, 0).is_none()
}

// Keeps the text of the next value, whose string is written so.
fn add(told: &mut Told, inside: &[u8]) -> Result<(), NoMemory>
    ensures { IfOk result (λ done. AddsText told.old told.new inside.now) }
{
    match text_place(&mut told.texts, inside) {
        Ok(place) => push_place(&mut told.places, place),
        Err(error) => Err(error),
    }
}

fn push_place(places: &mut Vec<Place>, place: Place) -> Result<(), NoMemory>
    ensures { IfOk result (λ done. places.new.items ≡ places.old.items ++ place ∷ []) }
{
    places.push(place)?;
    Ok(())
}

// The place of one more text, which is kept where an escape spells it.
fn text_place(texts: &mut Blob, inside: &[u8]) -> Result<Place, NoMemory>
    ensures { IfOk result (λ place. IsPlaceOf texts.old texts.new place inside.now) }
{
    if stands_for_itself(inside) {
        return Ok(Place { start: 0, after: 0 });
    }
    let start = texts.len();
    match push_unescaped(texts, inside) {
        Ok(()) => place_between(start, texts.len()),
        Err(error) => Err(error),
    }
}

// The place from one byte up to another. One that ends behind 2^32 - 2 bytes is want of memory.
fn place_between(start: usize, end: usize) -> Result<Place, NoMemory>
    ensures { IfOk result (λ place. (place.start ≡ start) × (place.after ≡ end + 1)) }
{
    match (u32::try_from(start), u32::try_from(end.saturating_add(1))) {
        (Ok(start), Ok(after)) => Ok(Place { start, after }),
        _ => Err(AllocError),
    }
}

impl Told {
    /// The text of the value of this number, whose string is written so.
    pub(crate) fn text<'r>(&'r self, number: usize, inside: &'r [u8]) -> &'r [u8]
        ensures { result.now ≡ told_at self.now number inside.now }
    {
        if number < self.places.len() {
            piece(self.texts.bytes(), self.places[number], inside)
        } else {
            inside
        }
    }
}

fn piece<'r>(texts: &'r [u8], place: Place, inside: &'r [u8]) -> &'r [u8]
    ensures { result.now ≡ piece texts.now place inside.now }
{
    if place.after == 0 {
        inside
    } else {
        part(texts, place.start as usize, place.after as usize - 1)
    }
}

// The bytes between two places, as far as there are any.
fn part(texts: &[u8], start: usize, end: usize) -> &[u8]
    ensures { result.now ≡ take (end - start) (drop start texts.now) }
{
    let rest = &texts[start.min(texts.len())..];
    &rest[..end.saturating_sub(start).min(rest.len())]
}
