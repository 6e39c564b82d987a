//! A session is a line of a text: how it ends, how its bytes are cut, which calls fail, what comes in, and what must go out.
use crate::desk::Desk;
use conn_serve::{Buffers, serve};
use side_base::{Blob, NoMemory, Sequence};
use side_memory::{MemorySink, MemorySource, Sizes};
use std::alloc::Global;
use std::process::Abort;
use std::sync::Wait;

mod first;
mod many;
mod sessions;

/// A session, and how it must end.
#[derive(Drop)]
struct Session<'a> {
    /// The end, as it is printed.
    ended: &'a str,
    /// Which reads fail, counted from 0.
    failing_reads: &'a str,
    /// How many bytes the writes take.
    writes: &'a str,
    /// Which writes fail, counted from 0.
    failing_writes: &'a str,
    input: Blob,
    output: Blob,
}

impl Session<'_> {
    /// Plays the session, whose reads give so many bytes, with buffers that other sessions may have had before.
    fn plays<R: Abort + Wait>(
        &self,
        rt: &R,
        alloc: Global,
        buffers: &mut Buffers,
        reads: Sizes,
    ) -> Result<(), NoMemory> {
        let failing = list(alloc, self.failing_reads)?;
        let mut source = MemorySource::new(self.input.copy()?, reads, failing);
        let failing = list(alloc, self.failing_writes)?;
        let mut sink = MemorySink::new(alloc, list(alloc, self.writes)?, failing);
        let ended = serve(
            rt,
            alloc,
            buffers,
            &mut Desk::new(alloc),
            &mut source,
            &mut sink,
        );
        let told = format!(in alloc; "{ended:?}")?;
        assert_eq!(rt; told.as_str(), self.ended);
        assert_eq!(rt; sink.bytes(), self.output.bytes());
        Ok(())
    }

    /// Plays the session byte by byte, and cut at each place into two pieces.
    fn plays_however_cut<R: Abort + Wait>(
        &self,
        rt: &R,
        alloc: Global,
        buffers: &mut Buffers,
    ) -> Result<(), NoMemory> {
        self.plays(rt, alloc, buffers, single_bytes(alloc, self.input.len())?)?;
        for place in 1..=self.input.len() {
            let mut reads = Sizes::new(alloc);
            reads.push(place)?;
            self.plays(rt, alloc, buffers, reads)?;
        }
        Ok(())
    }
}

/// So many reads of one byte.
fn single_bytes(alloc: Global, count: usize) -> Result<Sizes, NoMemory> {
    let mut sizes = Sizes::new(alloc);
    for _ in 0..count {
        sizes.push(1)?;
    }
    Ok(sizes)
}

/// The numbers below 256 of a text, between commas; all else says nothing.
fn list<T: From<u8> + Drop>(alloc: Global, text: &str) -> Result<Sequence<T>, NoMemory> {
    let mut numbers = Sequence::new(alloc);
    for word in text.split(',') {
        if let Ok(number) = word.parse::<u8>() {
            numbers.push(T::from(number))?;
        }
    }
    Ok(numbers)
}

/// The bytes of a text, in which each semicolon stands for CR LF.
fn message(alloc: Global, text: &str) -> Result<Blob, NoMemory> {
    let mut bytes = Blob::new(alloc);
    for byte in text.bytes() {
        if byte == b';' {
            bytes.push(b"\r\n")?;
        } else {
            bytes.push_byte(byte)?;
        }
    }
    Ok(bytes)
}
