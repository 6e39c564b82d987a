//! Moments as texts, and texts as moments (RFC 3339).
ghost use Rattle.std.specs.Prelude.{◌≡◌, ◌≤◌, ◌<◌, ◌↔◌, ◌++◌, ◌/◌, ◌%◌, ◌-◌, ◌*◌, ◌+◌, pos, IfOk, OnOk, IsTrue, drop, length};
ghost use Rattle.side_base.specs.Decimal.{after_digits, digits_at};
ghost use Rattle.jiff.specs.Words.{IsDate, epoch_day};
ghost use Rattle.cloud_events.specs.Clock.{IsTime, IsTimeOf, are_clock_digits, are_colons, are_dashes, are_date_digits, are_two, clock_form, clock_text, date_form, date_text, four_at, has_form, is_end, is_fraction, is_mark, is_offset, is_sign, is_two, is_zone, is_zulu, two, two_at};

use itoa::Buffer;
use jiff::ToSpan;
use jiff::civil::{Date, date};
use side_base::{Moment, NoMemory, Text, split_digits};
use std::alloc::Global;

/// The milliseconds of a day.
const DAY: u64 = 86_400_000;

/// A day of the calendar.
#[derive(Clone, Copy, Debug)]
pub(crate) struct Day {
    date: Date,
}

/// The moment as `YYYY-MM-DDTHH:MM:SSZ`, its milliseconds cut off.
pub(crate) fn time_text(alloc: Global, now: Moment) -> Result<Text, NoMemory>
    ensures { IfOk result (IsTimeOf now) }
{
    let ms = now.ms();
    let mut text = Text::new(alloc);
    let day = day_of(ms / DAY);
    push_date(&mut text, &day)?;
    push_clock(&mut text, (ms % DAY / 1_000) as u32)?;
    let _utf8 = text.as_str();
    Ok(text)
}

// The day of this number, where 1970-01-01 has 0.
fn day_of(days: u64) -> Day
    requires { days ≤ 2932896 }
    ensures { epoch_day result.date ≡ pos days }
{
    match date(1970, 1, 1).checked_add((days as i64).days()) {
        Ok(date) => Day { date },
        Err(_) => unreachable!(),
    }
}

fn push_date(text: &mut Text, day: &Day) -> Result<(), NoMemory>
    ensures { OnOk result (text.new ≡ text.old ++ date_text day.now) }
{
    let mut digits = Buffer::new();
    text.push(digits.format(day.date.year().unsigned_abs()))?;
    text.push("-")?;
    push_two(text, day.date.month().unsigned_abs())?;
    text.push("-")?;
    push_two(text, day.date.day().unsigned_abs())
}

// The second of a day.
fn push_clock(text: &mut Text, second: u32) -> Result<(), NoMemory>
    requires { second < 86400 }
    ensures { OnOk result (text.new ≡ text.old ++ clock_text second) }
{
    text.push("T")?;
    push_two(text, (second / 3_600) as u8)?;
    text.push(":")?;
    push_two(text, (second / 60 % 60) as u8)?;
    text.push(":")?;
    push_two(text, (second % 60) as u8)?;
    text.push("Z")
}

// A number in at least two digits.
fn push_two(text: &mut Text, number: u8) -> Result<(), NoMemory>
    ensures { OnOk result (text.new ≡ text.old ++ two number) }
{
    let mut digits = Buffer::new();
    if number < 10 {
        text.push("0")?;
    }
    text.push(digits.format(number))
}

/// Whether the text is a timestamp of a day that the calendar has.
pub(crate) fn is_time(bytes: &[u8]) -> bool
    ensures { IsTrue result ↔ IsTime bytes.now }
{
    if !has_form(bytes) {
        return false;
    }
    is_day(four_at(bytes), two_at(bytes, 5), two_at(bytes, 8))
}

fn has_form(bytes: &[u8]) -> bool
    ensures exact { result ≡ has_form bytes.now }
    ensures within { IsTrue result → 20 ≤ length bytes.now }
{
    bytes.len() >= 20 && date_form(bytes) && clock_form(bytes) && is_end(behind(bytes))
}

// What stands behind the seconds.
fn behind(bytes: &[u8]) -> &[u8]
    requires { 20 ≤ length bytes.now }
    ensures { result.now ≡ drop 19 bytes.now }
{
    let (_, end) = bytes.split_at(19);
    end
}

fn date_form(bytes: &[u8]) -> bool
    requires { 20 ≤ length bytes.now }
    ensures { result ≡ date_form bytes.now }
{
    are_dashes(bytes) && are_date_digits(bytes)
}

fn are_dashes(bytes: &[u8]) -> bool
    requires { 20 ≤ length bytes.now }
    ensures { result ≡ are_dashes bytes.now }
{
    bytes[4] == b'-' && bytes[7] == b'-'
}

fn are_date_digits(bytes: &[u8]) -> bool
    requires { 20 ≤ length bytes.now }
    ensures { result ≡ are_date_digits bytes.now }
{
    are_two(bytes, 0) && are_two(bytes, 2) && are_two(bytes, 5) && are_two(bytes, 8)
}

fn clock_form(bytes: &[u8]) -> bool
    requires { 20 ≤ length bytes.now }
    ensures { result ≡ clock_form bytes.now }
{
    is_mark(bytes[10]) && are_colons(bytes) && are_clock_digits(bytes)
}

fn is_mark(byte: u8) -> bool
    ensures { result ≡ is_mark byte }
{
    byte == b'T' || byte == b't'
}

fn are_colons(bytes: &[u8]) -> bool
    requires { 20 ≤ length bytes.now }
    ensures { result ≡ are_colons bytes.now }
{
    bytes[13] == b':' && bytes[16] == b':'
}

fn are_clock_digits(bytes: &[u8]) -> bool
    requires { 20 ≤ length bytes.now }
    ensures { result ≡ are_clock_digits bytes.now }
{
    is_two(bytes, 11, 23) && is_two(bytes, 14, 59) && is_two(bytes, 17, 59)
}

// Two digits.
fn are_two(bytes: &[u8], at: usize) -> bool
    requires { at + 2 ≤ length bytes.now }
    ensures { result ≡ are_two bytes.now at }
{
    bytes[at].is_ascii_digit() && bytes[at + 1].is_ascii_digit()
}

// Two digits that make `most` at most.
fn is_two(bytes: &[u8], at: usize, most: u32) -> bool
    requires { at + 2 ≤ length bytes.now }
    ensures { result ≡ is_two most bytes.now at }
{
    are_two(bytes, at) && two_at(bytes, at) <= most
}

// The number of two digits.
fn two_at(bytes: &[u8], at: usize) -> u32
    requires { at + 2 ≤ length bytes.now }
    ensures value { result ≡ two_at bytes.now at }
    ensures most { result ≤ 10000 }
{
    10 * u32::from(bytes[at].saturating_sub(b'0')) + u32::from(bytes[at + 1].saturating_sub(b'0'))
}

// The number of the first four digits.
fn four_at(bytes: &[u8]) -> u32
    requires { 4 ≤ length bytes.now }
    ensures { result ≡ four_at bytes.now }
{
    100 * two_at(bytes, 0) + two_at(bytes, 2)
}

// Whether the calendar has the day.
fn is_day(year: u32, month: u32, day: u32) -> bool
    ensures { IsTrue result ↔ IsDate (pos year) (pos month) (pos day) }
{
    if year > 9_999 || month > 12 || day > 31 {
        return false;
    }
    Date::new(year as i16, month as i8, day as i8).is_ok()
}

// What may follow the seconds: a fraction or none, and a zone.
fn is_end(rest: &[u8]) -> bool
    ensures { result ≡ is_end rest.now }
{
    if let [first, behind @ ..] = rest {
        if *first == b'.' {
            return is_fraction(behind);
        }
    }
    is_zone(rest)
}

// The digits of a fraction, and a zone.
fn is_fraction(rest: &[u8]) -> bool
    ensures { result ≡ is_fraction rest.now }
{
    let (digits, zone) = split_digits(rest);
    digits.len() >= 1 && is_zone(zone)
}

fn is_zone(rest: &[u8]) -> bool
    ensures { result ≡ is_zone rest.now }
{
    if rest.len() == 1 {
        is_zulu(rest[0])
    } else if rest.len() == 6 {
        is_offset(rest)
    } else {
        false
    }
}

fn is_zulu(byte: u8) -> bool
    ensures { result ≡ is_zulu byte }
{
    byte == b'Z' || byte == b'z'
}

fn is_sign(byte: u8) -> bool
    ensures { result ≡ is_sign byte }
{
    byte == b'+' || byte == b'-'
}

fn is_offset(rest: &[u8]) -> bool
    requires { 6 ≤ length rest.now }
    ensures { result ≡ is_offset rest.now }
{
    is_sign(rest[0]) && rest[3] == b':' && is_two(rest, 1, 23) && is_two(rest, 4, 59)
}
