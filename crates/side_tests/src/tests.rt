//! Each device is played one text, of which a line is a call and, behind its first `=`, the answer that it must have.
use side_base::{Blob, NoMemory, Sequence};
use side_world::Failed;
use std::alloc::Global;
use std::fmt;
use std::process::Abort;

mod acceptors;
mod bytes;
mod clocks;
mod disks;
mod files;
mod links;
mod outsides;

/// A device that is called by the lines of a text.
trait Device: Drop {
    /// The device that the line `new` begins, with what stands behind that word.
    fn begin(alloc: Global, given: &str) -> Result<Self, NoMemory>;

    /// Makes a call: its name, what it is given, and what it answers.
    fn answer(&mut self, alloc: Global, name: &str, given: &str) -> Result<Blob, NoMemory>;
}

/// Begins a device anew.
fn renew<D: Device>(alloc: Global, device: &mut D, given: &str) -> Result<(), NoMemory> {
    *device = D::begin(alloc, given)?;
    Ok(())
}

/// Plays one line.
fn plays_line<D: Device>(
    rt: &impl Abort,
    alloc: Global,
    device: &mut D,
    line: &str,
) -> Result<(), NoMemory> {
    let (call, wanted) = line.split_once('=').unwrap_or((line, ""));
    let (name, given) = cut(call);
    if name == "new" {
        return renew(alloc, device, given);
    }
    let answer = device.answer(alloc, name, given)?;
    assert_eq!(rt; answer.bytes(), wanted.as_bytes(), "{line}");
    Ok(())
}

/// Plays a text.
fn plays<D: Device, R: Abort>(rt: &R, alloc: Global, text: &str) -> Result<(), NoMemory> {
    let mut device = D::begin(alloc, "")?;
    for line in text.lines() {
        plays_line(rt, alloc, &mut device, line)?;
    }
    Ok(())
}

/// The first word of a text, and what follows the blank behind it.
fn cut(text: &str) -> (&str, &str) {
    text.split_once(' ').unwrap_or((text, ""))
}

fn said(alloc: Global, text: &str) -> Result<Blob, NoMemory> {
    Blob::from_bytes(alloc, text.as_bytes())
}

/// What an error says of itself.
fn told_by<E: fmt::Display>(alloc: Global, error: &E) -> Result<Blob, NoMemory> {
    said(alloc, format!(in alloc; "{error}")?.as_str())
}

/// `ok`, or what the failure of a device says of itself.
fn outcome(alloc: Global, ended: Result<(), Failed>) -> Result<Blob, NoMemory> {
    match ended {
        Ok(()) => said(alloc, "ok"),
        Err(failed) => told_by(alloc, &failed),
    }
}

/// The number that a text is; 0 where it is none.
fn number_in(text: &str) -> u64 {
    text.parse().unwrap_or(0)
}

/// A number as a text.
fn digits(alloc: Global, number: u64) -> Result<Blob, NoMemory> {
    said(alloc, format!(in alloc; "{number}")?.as_str())
}

/// The byte that these are, or `-` where they are not one.
fn only(bytes: &[u8]) -> u8 {
    match bytes {
        [byte] => *byte,
        _ => b'-',
    }
}

/// The digits of a text as numbers; other letters say nothing.
fn list<T: From<u8> + Drop>(alloc: Global, digits: &str) -> Result<Sequence<T>, NoMemory> {
    let mut numbers = Sequence::new(alloc);
    for digit in digits.bytes() {
        if digit.is_ascii_digit() {
            numbers.push(T::from(digit - b'0'))?;
        }
    }
    Ok(numbers)
}
