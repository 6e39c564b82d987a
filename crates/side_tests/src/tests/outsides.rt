use super::acceptors::answers;
use super::disks::image;
use super::{Device, cut, digits, list, plays, said};
use side_base::{Blob, Moment, NoMemory, Places};
use side_memory::{LinkAnswers, MemoryAcceptor, MemoryDisk, MemoryOutside, Steps, WorkerScript};
use side_world::{Accepted, Acceptor, Disk, Failed, Outside};
use std::alloc::Global;
use std::test::Fail;

// Writes over the front of a disk, where it fits, as its second call.
fn write_front(disk: &mut MemoryDisk, piece: &[u8]) -> Result<(), Failed> {
    let len = disk.len()?;
    if len < 2 {
        return Err(Failed);
    }
    disk.write_at(0, piece)
}

// The length of a disk, and how a write over its front ended.
fn overwritten(alloc: Global, disk: &mut MemoryDisk, piece: &str) -> Result<Blob, NoMemory> {
    let mut text = digits(alloc, disk.len().unwrap_or(8))?;
    let end: &[u8] = match write_front(disk, piece.as_bytes()) {
        Ok(()) => b" written",
        Err(Failed) => b" failed",
    };
    text.push(end)?;
    Ok(text)
}

// Takes a disk, writes over its front, and gives it back: the length that it was taken with, and how the write ended.
fn used(alloc: Global, outside: &mut MemoryOutside, given: &str) -> Result<Blob, NoMemory> {
    let (path, piece) = cut(given);
    match outside.take_disk(path.as_bytes()) {
        Ok(mut disk) => {
            let text = overwritten(alloc, &mut disk, piece);
            outside.give_disk(path.as_bytes(), disk);
            text
        }
        Err(Failed) => said(alloc, "not taken"),
    }
}

// The bytes of the disk at a path, where it is.
fn held(alloc: Global, outside: &MemoryOutside, path: &str) -> Result<Blob, NoMemory> {
    match outside.disk(path.as_bytes()) {
        Some(disk) => Blob::from_bytes(alloc, disk.bytes()),
        None => said(alloc, "none"),
    }
}

// How many writes and syncs a disk has noted, and what a crash that tears the first one leaves.
fn notes_of(alloc: Global, disk: &MemoryDisk) -> Result<Blob, NoMemory> {
    let mut text = digits(alloc, disk.moment() as u64)?;
    text.push(b" ")?;
    text.push(image(alloc, disk, 1, "F1")?.bytes())?;
    Ok(text)
}

// The same of the disk `j`.
fn noted(alloc: Global, outside: &MemoryOutside) -> Result<Blob, NoMemory> {
    match outside.disk(b"j") {
        Some(disk) => notes_of(alloc, disk),
        None => said(alloc, "none"),
    }
}

// A worker whose acceptor answers what a text names, and whose clock begins at this moment.
fn script(alloc: Global, text: &str, first: Moment) -> Result<WorkerScript, NoMemory> {
    Ok(WorkerScript {
        answers: answers(alloc, text)?,
        failing_accepts: Places::new(alloc),
        link_answers: LinkAnswers::new(alloc),
        failing_calls: Places::new(alloc),
        first,
        steps: Steps::new(alloc),
    })
}

fn add_worker(alloc: Global, outside: &mut MemoryOutside, text: &str) -> Result<(), NoMemory> {
    match Moment::at(5) {
        Some(first) => outside.add_worker(script(alloc, text, first)?),
        None => Ok(()),
    }
}

// How many answers an acceptor tells.
fn answered(alloc: Global, acceptor: &MemoryAcceptor) -> Result<Blob, NoMemory> {
    match acceptor.notes() {
        Some(notes) => digits(alloc, notes.len() as u64),
        None => said(alloc, "untold"),
    }
}

// The same of the acceptor of a worker that was given back.
fn back(alloc: Global, outside: &MemoryOutside, number: u32) -> Result<Blob, NoMemory> {
    match outside.back(number) {
        Some(parts) => answered(alloc, &parts.acceptor),
        None => said(alloc, "none"),
    }
}

// Accepts once.
fn accepted(acceptor: &mut MemoryAcceptor) -> &'static str {
    match acceptor.accept() {
        Accepted::Idle => "idle",
        _ => "not idle",
    }
}

// Lets a worker accept once.
fn worked(outside: &mut MemoryOutside, number: u32) -> &'static str {
    match outside.worker(3500, number) {
        Ok(mut parts) => {
            let answer = accepted(&mut parts.acceptor);
            outside.give_worker(number, parts);
            answer
        }
        Err(Failed) => "failed",
    }
}

// Adds a disk `j` of three bytes, with its listed failing calls, and two workers, of which the second finds the acceptor closed.
fn furnish(alloc: Global, outside: &mut MemoryOutside, failing: &str) -> Result<(), NoMemory> {
    outside.add_disk(b"j", b"abc", list(alloc, failing)?)?;
    add_worker(alloc, outside, "i")?;
    add_worker(alloc, outside, "c")
}

// The number of a worker; 9 where a text is none.
fn worker_in(text: &str) -> u32 {
    text.parse().unwrap_or(9)
}

// `new` begins one with the numbers 7 and 8, a disk and two workers, and with the listed failing calls of the outside and of the disk.
impl Device for MemoryOutside {
    fn begin(alloc: Global, given: &str) -> Result<MemoryOutside, NoMemory> {
        let (failing, of_disk) = cut(given);
        let numbers = list(alloc, "78")?;
        let mut outside = MemoryOutside::new(alloc, numbers, list(alloc, failing)?);
        furnish(alloc, &mut outside, of_disk)?;
        Ok(outside)
    }

    fn answer(&mut self, alloc: Global, name: &str, given: &str) -> Result<Blob, NoMemory> {
        match name {
            "use" => used(alloc, self, given),
            "held" => held(alloc, self, given),
            "noted" => noted(alloc, self),
            "number" => digits(alloc, self.start_number()),
            "work" => said(alloc, worked(self, worker_in(given))),
            "back" => back(alloc, self, worker_in(given)),
            _ => said(alloc, "unknown"),
        }
    }
}

// Disks are lent, and tell their images when they are back; numbers come in order; workers begin once.
const OUTSIDES: &str = "\
new 1 1
held k=none
use j xy=3 failed
held j=abc
use j xy=not taken
use j xy=3 written
held j=xyc
use k xy=0 failed
held k=
new
use j xy=3 written
noted=1 xbc
new
number=7
number=8
number=0
new 2
back 0=none
work 0=idle
work 0=failed
work 1=failed
work 1=not idle
work 2=failed
back 0=1";

#[test]
fn an_outside_lends_its_parts(rt: HostRuntime) -> Result<(), Fail> {
    Ok(plays::<MemoryOutside, _>(&rt, rt.alloc(), OUTSIDES)?)
}
