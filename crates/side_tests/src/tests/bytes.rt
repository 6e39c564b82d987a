use super::{Device, cut, list, number_in, outcome, plays, said, told_by};
use side_base::{Blob, NoMemory, Places};
use side_memory::{MemorySink, MemorySource, Sizes};
use side_world::{BytesSource, Failed, Source, gather, send};
use std::alloc::Global;
use std::test::Fail;

// The counts that five reads into a buffer of four bytes answer, as digits; 9 stands for a failed read.
fn counts<S: Source>(alloc: Global, source: &mut S) -> Result<Blob, NoMemory> {
    let mut answers = Blob::new(alloc);
    let mut piece = [0; 4];
    for _ in 0..5 {
        answers.push_byte(match source.read(&mut piece) {
            Ok(n) => b'0' + n as u8,
            Err(Failed) => b'9',
        })?;
    }
    Ok(answers)
}

// All that a source gives up to a limit.
fn gathered<S: Source>(alloc: Global, source: &mut S, limit: &str) -> Result<Blob, NoMemory> {
    match gather(alloc, source, number_in(limit) as usize) {
        Ok(read) => Ok(read),
        Err(error) => told_by(alloc, &error),
    }
}

// `new` begins one of these bytes, whose reads give so many each and fail at the listed places.
impl Device for MemorySource {
    fn begin(alloc: Global, given: &str) -> Result<MemorySource, NoMemory> {
        let (bytes, rest) = cut(given);
        let (sizes, failing) = cut(rest);
        let bytes = said(alloc, bytes)?;
        let sizes = list(alloc, sizes)?;
        Ok(MemorySource::new(bytes, sizes, list(alloc, failing)?))
    }

    fn answer(&mut self, alloc: Global, name: &str, given: &str) -> Result<Blob, NoMemory> {
        match name {
            "counts" => counts(alloc, self),
            "gather" => gathered(alloc, self, given),
            _ => said(alloc, "unknown"),
        }
    }
}

// A source gives its pieces, and is gathered to its end, a limit, or a failure.
const SOURCES: &str = "\
new abcdefgh
counts=44000
new abcdefgh 109
counts=11420
new abcdefgh - 02
counts=94940
new  - 1
counts=09000
new request 12
gather 100=request
new request 3
gather 5=reque
new
gather 5=
new request 16 0
gather 100=the source failed
new request 16 1
gather 100=the source failed
new request 16 2
gather 100=the source failed";

#[test]
fn a_source_gives_its_pieces(rt: HostRuntime) -> Result<(), Fail> {
    Ok(plays::<MemorySource, _>(&rt, rt.alloc(), SOURCES)?)
}

// `new` begins one whose writes take so many bytes each and fail at the listed places, `new room` one with room for eight.
impl Device for MemorySink {
    fn begin(alloc: Global, given: &str) -> Result<MemorySink, NoMemory> {
        if given == "room" {
            return MemorySink::with_room(alloc, 8, Sizes::new(alloc), Places::new(alloc));
        }
        let (sizes, failing) = cut(given);
        let sizes = list(alloc, sizes)?;
        Ok(MemorySink::new(alloc, sizes, list(alloc, failing)?))
    }

    fn answer(&mut self, alloc: Global, name: &str, given: &str) -> Result<Blob, NoMemory> {
        match name {
            "send" => outcome(alloc, send(self, given.as_bytes())),
            "bytes" => Blob::from_bytes(alloc, self.bytes()),
            _ => said(alloc, "unknown"),
        }
    }
}

// A sink gets all or a prefix.
const SINKS: &str = "\
new 120
send response=ok
send=ok
send !=ok
bytes=response!
new 12 0
send response=the device failed
bytes=
new 12 1
send response=the device failed
bytes=r
new 12 2
send response=the device failed
bytes=res
new room
send response=ok
bytes=response";

#[test]
fn a_sink_gets_all_or_a_prefix(rt: HostRuntime) -> Result<(), Fail> {
    Ok(plays::<MemorySink, _>(&rt, rt.alloc(), SINKS)?)
}

#[test]
fn a_source_of_bytes_never_fails(rt: HostRuntime) -> Result<(), Fail> {
    let alloc = rt.alloc();
    let mut source = BytesSource::new(Blob::from_bytes(alloc, b"abcdef")?);
    source.between(true);
    assert_eq!(rt; counts(alloc, &mut source)?.bytes(), b"42000".as_slice());
    Ok(())
}
