// Words, numbers and texts that stand several times.
ghost use Rattle.std.specs.Prelude.{◌≡◌, ◌==◌, ◌-◌, ◌^◌, ◌++◌, min, decimal, OnOk};
ghost use Rattle.std.specs.List.{before_first, after_first};
ghost use Rattle.std.specs.Str.Parse.{digits_value};
ghost use Rattle.side_base.specs.Decimal.{digits_at};
ghost use Rattle.case_text.specs.Lines.{line};
ghost use Rattle.case_text.specs.Section.{number_at, repeated, numbered};

use itoa::Buffer;
use side_base::{Blob, NoMemory, number_of, split_digits};

/// The first word of some, and what stands behind its space.
pub fn first_word(words: &str) -> (&str, &str)
    ensures word { result.0.now ≡ before_first (λ byte. byte == 32) words.now }
    ensures others { result.1.now ≡ after_first (λ byte. byte == 32) words.now }
{
    match words.split_once(' ') {
        Some((word, others)) => (word, others),
        None => (words, ""),
    }
}

/// The number that a text begins with, or the greatest `u64` where that is less; 0 where it begins with none.
pub fn long_number_in(text: &[u8]) -> u64
    ensures { result ≡ min (digits_value 10 (digits_at text.now)) (2 ^ 64 - 1) }
{
    let (digits, _) = split_digits(text);
    number_of(digits)
}

/// The number that a text begins with; 0 where it begins with none or with one past `u32::MAX`.
pub fn number_in(text: &str) -> u32
    ensures { result ≡ number_at text.now }
{
    u32::try_from(long_number_in(text.as_bytes())).unwrap_or(0)
}

/// Adds a text so many times.
pub fn push_times(all: &mut Blob, text: &[u8], times: u64) -> Result<(), NoMemory>
    ensures { OnOk result (all.new ≡ all.old ++ repeated times text.now) }
{
    let mut left = times;
    while left > 0 {
        all.push(text)?;
        left -= 1;
    }
    Ok(())
}

// Adds a line of a text and a number behind it.
fn push_number(all: &mut Blob, text: &[u8], number: u64) -> Result<(), NoMemory>
    ensures { OnOk result (all.new ≡ all.old ++ line text.now (decimal number)) }
{
    let mut buffer = Buffer::new();
    all.push(text)?;
    all.push(buffer.format(number).as_bytes())?;
    all.push_byte(b'\n')
}

/// Adds a text so many times, each time with its number from 0 on behind it and a line end.
pub fn push_numbered(all: &mut Blob, text: &[u8], times: u64) -> Result<(), NoMemory>
    ensures { OnOk result (all.new ≡ all.old ++ numbered 0 times text.now) }
{
    for number in 0..times {
        push_number(all, text, number)?;
    }
    Ok(())
}
