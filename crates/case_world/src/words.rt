//! What single words of a case say. What finds no memory is left out: then the case differs, and is played again.

ghost use Rattle.std.specs.Prelude.{◌≡◌, ◌≤◌, ◌<◌, ◌⊎◌, ◌-◌, ◌^◌, codes, min};
ghost use Rattle.std.specs.Str.Parse.{digits_value};
ghost use Rattle.side_base.specs.Decimal.{digits_at};

use case_text::{Section, long_number_in, name_in, text_of};
use side_base::{Field, Fields, Moment, Text};
use std::alloc::Global;

/// The number that a text begins with, or the greatest `u64` where that is less; 0 where it begins with none.
pub fn number(text: &str) -> u64
    ensures { result ≡ min (digits_value 10 (digits_at text.now)) (2 ^ 64 - 1) }
{
    long_number_in(text.as_bytes())
}

/// The number of a section of this word; 0 where there is none.
pub fn number_named(sections: &[Section<'_>], word: &str) -> u64 {
    number(name_in(sections, word).unwrap_or("0"))
}

/// A copy of a text, or `no memory`.
pub fn text(alloc: Global, text: &str) -> Text
    ensures { (result ≡ text.now) ⊎ (result ≡ codes "no memory") }
{
    match Text::from_str(alloc, text) {
        Ok(copy) => copy,
        Err(_) => Text::from_static(alloc, "no memory"),
    }
}

/// The moment so many milliseconds after the beginning of 1970, or that beginning where there is none.
pub fn moment(ms: u64) -> Moment
    ensures there { ms < 253402300800000 → result ≡ ms }
    ensures past { 253402300800000 ≤ ms → result ≡ 0 }
{
    match Moment::at(ms) {
        Some(moment) => moment,
        None => first_moment(),
    }
}

fn first_moment() -> Moment
    ensures { result ≡ 0 }
{
    match Moment::at(0) {
        Some(moment) => moment,
        None => unreachable!(),
    }
}

/// Adds the field that a section says.
pub(crate) fn add_field(alloc: Global, fields: &mut Fields, section: &Section<'_>) {
    let _ = fields.push(Field {
        name: text(alloc, section.name),
        value: text_of(alloc, section),
    });
}

/// The fields of the requests of a case.
pub fn request_fields(alloc: Global, sections: &[Section<'_>]) -> Fields {
    let mut fields = Fields::new(alloc);
    for section in sections {
        if section.word == "field" {
            add_field(alloc, &mut fields, section);
        }
    }
    fields
}
