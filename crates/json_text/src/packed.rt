// Values as they are kept, in 24 bytes each.
ghost use Rattle.std.specs.Prelude.{◌≡◌, ◌++◌, ◌∷◌, [], IfSome, OnOk};
ghost use Rattle.json_text.specs.Packed.{name_kept};

use crate::spot::{Entry, Span, Spot};
use json_lexemes::Kind;
use side_base::NoMemory;
use std::alloc::AllocError;
use std::marker::Model;

/// A value as it is kept, whose places and size are below 2^32. Contracts see it as its entry.
#[derive(Drop)]
pub struct Packed {
    start: u32,
    end: u32,
    name_start: u32,
    /// 0 where the value has no name.
    name_end: u32,
    size: u32,
    depth: u8,
    kind: Kind,
}

impl Model for Packed {
    ghost use Rattle.json_text.specs.declared.spot.Entry.{Entry};
    ghost use Rattle.json_text.specs.Packed.{name_kept};

    ghost Value = { Entry };

    ghost view = { λ p. record { spot = record { kind = p.kind; span = record { start = p.start; end = p.end }; name = name_kept p.name_start p.name_end }; depth = p.depth; size = p.size } };
}

impl Packed {
    /// The value as it is kept, if its numbers fit.
    #[inline]
    pub(crate) fn of(entry: Entry) -> Option<Packed>
        ensures { IfSome result (λ packed. packed ≡ entry) }
    {
        let start = short_of(entry.spot.span.start)?;
        let end = short_of(entry.spot.span.end)?;
        let (name_start, name_end) = short_name(entry.spot.name)?;
        let size = short_of(entry.size)?;
        let depth = byte_of(entry.depth)?;
        Some(Packed {
            start,
            end,
            name_start,
            name_end,
            size,
            depth,
            kind: entry.spot.kind,
        })
    }

    /// What is kept.
    #[inline]
    pub(crate) fn unpacked(&self) -> Entry
        ensures { result ≡ self.now }
    {
        Entry {
            spot: Spot {
                kind: self.kind,
                span: Span {
                    start: self.start as usize,
                    end: self.end as usize,
                },
                name: name_of(self.name_start, self.name_end),
            },
            depth: self.depth as usize,
            size: self.size as usize,
        }
    }

    /// How many lists and maps the value stands in.
    #[inline]
    pub(crate) fn depth(&self) -> usize
        ensures { result ≡ self.now.depth }
    {
        self.depth as usize
    }

    /// What the value is.
    #[inline]
    pub(crate) fn kind(&self) -> Kind
        ensures { result ≡ self.now.spot.kind }
    {
        self.kind
    }
}

#[inline]
fn short_of(number: usize) -> Option<u32>
    ensures { IfSome result (λ short. short ≡ number) }
{
    u32::try_from(number).ok()
}

#[inline]
fn byte_of(number: usize) -> Option<u8>
    ensures { IfSome result (λ short. short ≡ number) }
{
    u8::try_from(number).ok()
}

// The two places of a name, if they fit.
#[inline]
fn short_name(name: Option<Span>) -> Option<(u32, u32)>
    ensures { IfSome result (λ places. name_kept places.0 places.1 ≡ name) }
{
    match name {
        Some(span) => {
            let start = short_of(span.start)?;
            let end = short_of(span.end)?;
            if end == 0 {
                return None;
            }
            Some((start, end))
        }
        None => Some((0, 0)),
    }
}

#[inline]
fn name_of(start: u32, end: u32) -> Option<Span>
    ensures { result ≡ name_kept start end }
{
    if end == 0 {
        None
    } else {
        Some(Span {
            start: start as usize,
            end: end as usize,
        })
    }
}

/// Keeps a value behind the others. Its numbers that don't fit are want of memory.
#[inline]
pub(crate) fn keep(nodes: &mut Vec<Packed>, entry: Entry) -> Result<(), NoMemory>
    ensures { OnOk result (nodes.new.items ≡ nodes.old.items ++ entry ∷ []) }
{
    match Packed::of(entry) {
        Some(packed) => Ok(nodes.push(packed)?),
        None => Err(AllocError),
    }
}
