// Reading a text in one pass, a token at a time, with a stack of what is open.
ghost use Rattle.std.specs.Prelude.{◌≡◌, ◌<◌, ◌≤◌, ◌+◌, ◌&&◌, ◌==◌, false, true, length, slice_index, Some, None, OnOk, IfOk, IfErr};
ghost use Rattle.json_text.specs.Grammar.{is_blank, closes, opens, takes_value, takes_name, turns};
ghost use Rattle.json_text.specs.Progress.{spot};
ghost use Rattle.json_text.specs.Reading.{IsCause, Holds, innermost};

use crate::error::JsonErr;
use crate::packed::{Packed, keep};
use crate::part::{
    Bracket, Opening, Part, bracket_of, is_blank_byte, is_closed_by, kind_of, may_be_named,
    turned_by, value_name,
};
use crate::spot::{Entry, Span, Spot};
use byte_lanes::{QUOTE, utf8_len};
use json_lexemes::scan::scan;
use json_lexemes::{Kind, Lexeme, first_word};
use std::alloc::Global;

/// How many lists and maps may be open at once.
pub const MAX_DEPTH: usize = 64;

/// A reader within a text: where it stands, a place up to which the bytes are UTF-8, the values that have begun, and the lists
/// and maps that are open.
#[derive(Drop)]
struct Reader<'a> {
    bytes: &'a [u8],
    at: usize,
    text: usize,
    nodes: Vec<Packed>,
    opened: Vec<Opening>,
}

/// The values of a text, each before what it holds.
pub(crate) fn read_entries(alloc: Global, bytes: &[u8]) -> Result<Vec<Packed>, JsonErr>
    ensures ok { IfOk result (λ nodes. Holds bytes.now nodes.items) }
    ensures err { IfErr result (IsCause bytes.now) }
{
    let mut reader = Reader {
        bytes,
        at: 0,
        text: utf8_len(bytes),
        nodes: Vec::new(alloc),
        opened: Vec::new(alloc),
    };
    let mut here = Part::Start;
    loop {
        reader.skip_blanks(here);
        if reader.at == bytes.len() {
            return reader.finish(here);
        }
        match reader.take(here) {
            Ok(there) => here = there,
            Err(error) => return Err(error),
        }
    }
}

impl<'a> Reader<'a> {
    ghost use Rattle.json_text.specs.Reader.{IsReader, Faces, FacesOther};

    // Passes over blanks.
    #[inline]
    fn skip_blanks(&mut self, here: Part)
        requires { IsReader self.old here }
        ensures same { self.new.bytes ≡ self.old.bytes }
        ensures reader { IsReader self.new here }
        ensures low { self.old.at ≤ self.new.at }
        ensures past { self.new.at < length self.new.bytes.now → is_blank (slice_index self.new.bytes.now self.new.at) ≡ false }
    {
        while self.at < self.bytes.len() && is_blank_byte(self.bytes[self.at]) {
            self.at += 1;
        }
    }

    // The bracket of the innermost list or map.
    #[inline]
    fn level(&self) -> Option<Bracket>
        ensures { result ≡ innermost self.now.opened.items }
    {
        let count = self.opened.len();
        if count == 0 {
            None
        } else {
            Some(self.opened[count - 1].bracket)
        }
    }

    // The end of the text.
    fn finish(self, here: Part) -> Result<Vec<Packed>, JsonErr>
        requires reader { IsReader self here }
        requires all { self.at ≡ length self.bytes.now }
        ensures ok { IfOk result (λ nodes. Holds self.entry.bytes.now nodes.items) }
        ensures err { IfErr result (IsCause self.entry.bytes.now) }
    {
        if !self.opened.is_empty() {
            return Err(JsonErr::Bad { at: self.at });
        }
        match here {
            Part::Rest => Ok(self.nodes),
            _ => Err(JsonErr::Bad { at: self.at }),
        }
    }

    // One token: a bracket, a comma, a colon, a word or a name.
    #[inline]
    fn take(&mut self, here: Part) -> Result<Part, JsonErr>
        requires inside { self.old.at < length self.old.bytes.now }
        requires reader { IsReader self.old here }
        requires past { is_blank (slice_index self.old.bytes.now self.old.at) ≡ false }
        ensures same { self.new.bytes ≡ self.old.bytes }
        ensures moved { OnOk result (self.old.at < self.new.at) }
        ensures reader { IfOk result (IsReader self.new) }
        ensures err { IfErr result (IsCause self.old.bytes.now) }
    {
        let byte = self.bytes[self.at];
        let level = self.level();
        if is_closed_by(level, here, byte) {
            return self.close(here, level);
        }
        if let Some(there) = turned_by(level, here, byte) {
            self.at += 1;
            return Ok(there);
        }
        match value_name(level, here) {
            Some(name) => self.value(here, level, name),
            None => self.name(here, level),
        }
    }

    // The end of the innermost list or map.
    fn close(&mut self, here: Part, level: Option<Bracket>) -> Result<Part, JsonErr>
        requires faces { Faces self.old here level }
        requires closes { closes level here (slice_index self.old.bytes.now self.old.at) ≡ true }
        ensures same { self.new.bytes ≡ self.old.bytes }
        ensures moved { OnOk result (self.old.at < self.new.at) }
        ensures reader { IfOk result (IsReader self.new) }
        ensures err { IfErr result (IsCause self.old.bytes.now) }
    {
        match self.opened.pop() {
            Some(opening) => {
                let end = self.at + 1;
                let kept = self.nodes[opening.node].unpacked();
                let size = self.nodes.len() - opening.node;
                match Packed::of(ended(kept, end, size)) {
                    Some(packed) => self.nodes[opening.node] = packed,
                    None => return Err(JsonErr::NoMemory),
                }
                self.at = end;
                Ok(Part::Rest)
            }
            None => unreachable!(),
        }
    }

    // A value: a list, a map or a word.
    #[inline]
    fn value(
        &mut self,
        here: Part,
        level: Option<Bracket>,
        name: Option<Span>,
    ) -> Result<Part, JsonErr>
        requires faces { FacesOther self.old here level }
        requires takes { takes_value level here ≡ Some name }
        ensures same { self.new.bytes ≡ self.old.bytes }
        ensures moved { OnOk result (self.old.at < self.new.at) }
        ensures reader { IfOk result (IsReader self.new) }
        ensures err { IfErr result (IsCause self.old.bytes.now) }
    {
        match bracket_of(self.bytes[self.at]) {
            Some(bracket) => self.open_bracket(here, level, name, bracket),
            None => self.word(here, level, name),
        }
    }

    // The beginning of a list or a map.
    #[inline]
    fn open_bracket(
        &mut self,
        here: Part,
        level: Option<Bracket>,
        name: Option<Span>,
        bracket: Bracket,
    ) -> Result<Part, JsonErr>
        requires faces { FacesOther self.old here level }
        requires takes { takes_value level here ≡ Some name }
        requires bracket { opens (slice_index self.old.bytes.now self.old.at) ≡ Some bracket }
        ensures same { self.new.bytes ≡ self.old.bytes }
        ensures moved { OnOk result (self.old.at < self.new.at) }
        ensures reader { IfOk result (IsReader self.new) }
        ensures err { IfErr result (IsCause self.old.bytes.now) }
    {
        let at = self.at;
        let depth = self.opened.len();
        if depth >= MAX_DEPTH {
            return Err(JsonErr::Deep { at });
        }
        let node = self.nodes.len();
        let entry = Entry {
            spot: spot_of(kind_of(bracket), at, at, name),
            depth,
            size: 0,
        };
        match keep(&mut self.nodes, entry) {
            Ok(()) => {}
            Err(_) => return Err(JsonErr::NoMemory),
        }
        match self.opened.push(Opening { bracket, node }) {
            Ok(()) => {}
            Err(_) => return Err(JsonErr::NoMemory),
        }
        self.at = at + 1;
        Ok(Part::Start)
    }

    // A number, a string or a literal.
    #[inline]
    fn word(
        &mut self,
        here: Part,
        level: Option<Bracket>,
        name: Option<Span>,
    ) -> Result<Part, JsonErr>
        requires faces { FacesOther self.old here level }
        requires takes { takes_value level here ≡ Some name }
        requires no_bracket { opens (slice_index self.old.bytes.now self.old.at) ≡ None }
        ensures same { self.new.bytes ≡ self.old.bytes }
        ensures moved { OnOk result (self.old.at < self.new.at) }
        ensures reader { IfOk result (IsReader self.new) }
        ensures err { IfErr result (IsCause self.old.bytes.now) }
    {
        let at = self.at;
        let first = match first_word(self.bytes[at]) {
            Some(first) => first,
            None => return Err(JsonErr::Bad { at }),
        };
        let word = match scan(self.bytes, at + 1, first, self.text) {
            Ok(word) => word,
            Err(place) => return Err(JsonErr::Bad { at: place }),
        };
        let entry = Entry {
            spot: spot_of(word.kind, at, word.end, name),
            depth: self.opened.len(),
            size: 1,
        };
        match keep(&mut self.nodes, entry) {
            Ok(()) => {}
            Err(_) => return Err(JsonErr::NoMemory),
        }
        self.at = word.end;
        Ok(Part::Rest)
    }

    // The name of a member.
    #[inline]
    fn name(&mut self, here: Part, level: Option<Bracket>) -> Result<Part, JsonErr>
        requires faces { FacesOther self.old here level }
        requires takes { takes_value level here ≡ None }
        ensures same { self.new.bytes ≡ self.old.bytes }
        ensures moved { OnOk result (self.old.at < self.new.at) }
        ensures reader { IfOk result (IsReader self.new) }
        ensures err { IfErr result (IsCause self.old.bytes.now) }
    {
        let at = self.at;
        if !begins_name(level, here, self.bytes[at]) {
            return Err(JsonErr::Bad { at });
        }
        let word = match scan(self.bytes, at + 1, Lexeme::Plain { high: false }, self.text) {
            Ok(word) => word,
            Err(place) => return Err(JsonErr::Bad { at: place }),
        };
        self.at = word.end;
        Ok(Part::Named {
            name: Span {
                start: at,
                end: word.end,
            },
        })
    }
}

// Whether a byte begins a name that may stand here.
#[inline]
fn begins_name(level: Option<Bracket>, here: Part, byte: u8) -> bool
    ensures { result ≡ (takes_name level here && byte == 34) }
{
    may_be_named(level, here) && byte == QUOTE
}

fn spot_of(kind: Kind, start: usize, end: usize, name: Option<Span>) -> Spot
    ensures { result ≡ spot kind start end name }
{
    Spot {
        kind,
        span: Span { start, end },
        name,
    }
}

// The entry of a list or a map that has ended.
fn ended(entry: Entry, end: usize, size: usize) -> Entry
    ensures { result ≡ record { spot = spot entry.spot.kind entry.spot.span.start end entry.spot.name; depth = entry.depth; size = size } }
{
    Entry {
        spot: spot_of(entry.spot.kind, entry.spot.span.start, end, entry.spot.name),
        depth: entry.depth,
        size,
    }
}
