use super::{Device, cut, digits, list, number_in, outcome, plays, said, told_by};
use side_base::{Blob, NoMemory};
use side_memory::{MemoryDisk, Tear};
use side_world::{Disk, Failed};
use std::alloc::Global;
use std::test::Fail;

// A tear in two letters: `F` and how many bytes are kept of the front, `B` of the back, `N` and the byte that stands for each.
fn tear(word: &str) -> Tear {
    match word.as_bytes() {
        [b'F', digit] => Tear::Front(usize::from(digit % 16)),
        [b'B', digit] => Tear::Back(usize::from(digit % 16)),
        [_, byte] => Tear::Noise(*byte),
        _ => Tear::Front(0),
    }
}

// What a crash at that moment, with these tears, leaves.
pub(super) fn image(
    alloc: Global,
    disk: &MemoryDisk,
    moment: usize,
    words: &str,
) -> Result<Blob, NoMemory> {
    if moment > disk.moment() {
        return said(alloc, "no moment");
    }
    let mut tears = Vec::new(alloc);
    for word in words.split(' ') {
        if !word.is_empty() {
            tears.push(tear(word))?;
        }
    }
    disk.image(moment, &tears)
}

// A write where it may stand.
fn write(disk: &mut MemoryDisk, at: usize, piece: &[u8]) -> Result<(), Failed> {
    if at > disk.bytes().len() {
        return Err(Failed);
    }
    disk.write_at(at as u64, piece)
}

// What a read of the byte at a place gives, where there is one.
fn byte_at(disk: &mut MemoryDisk, at: usize) -> Result<u8, Failed> {
    let mut piece = [0; 1];
    if at >= disk.bytes().len() {
        return Err(Failed);
    }
    disk.read_at(at as u64, &mut piece)?;
    Ok(piece[0])
}

fn read(alloc: Global, disk: &mut MemoryDisk, at: usize) -> Result<Blob, NoMemory> {
    match byte_at(disk, at) {
        Ok(byte) => Blob::from_bytes(alloc, &[byte]),
        Err(failed) => told_by(alloc, &failed),
    }
}

fn len(alloc: Global, disk: &mut MemoryDisk) -> Result<Blob, NoMemory> {
    match disk.len() {
        Ok(len) => digits(alloc, len),
        Err(failed) => told_by(alloc, &failed),
    }
}

// `new` begins one of these bytes, which fails at the listed calls.
impl Device for MemoryDisk {
    fn begin(alloc: Global, given: &str) -> Result<MemoryDisk, NoMemory> {
        let (bytes, failing) = cut(given);
        MemoryDisk::new(alloc, bytes.as_bytes(), list(alloc, failing)?)
    }

    fn answer(&mut self, alloc: Global, name: &str, given: &str) -> Result<Blob, NoMemory> {
        let (first, rest) = cut(given);
        let number = number_in(first) as usize;
        match name {
            "len" => len(alloc, self),
            "sync" => outcome(alloc, self.sync()),
            "write" => outcome(alloc, write(self, number, rest.as_bytes())),
            "read" => read(alloc, self, number),
            "image" => image(alloc, self, number, rest),
            _ => said(alloc, "unknown"),
        }
    }
}

// What a crash leaves at each moment of a write and a sync; writes are torn one by one, the one that failed too; and a disk fails at
// its listed calls, and at no other.
const DISKS: &str = "\
new abcd
write 2 XYZ=ok
sync=ok
image 0 F9=abcd
image 1 F0=abcd
image 1 F1=abXd
image 1 B1=abcdZ
image 1 N?=ab???
image 2 F0=abXYZ
image 1=abXYZ
new  2
write 0 abc=ok
write 3 de=ok
write 1 --=the device failed
image 3 F9 F9 F9=a--de
image 3 N? F0 F0=???
image 3 F0 F2 F0=
image 3 B1 B1 F0=\0\0c\0e
new ab 0123
len=the device failed
read 1=the device failed
write 2 c=the device failed
sync=the device failed
len=2
read 1=b
image 1=abc";

#[test]
fn a_disk_tells_what_a_crash_leaves(rt: HostRuntime) -> Result<(), Fail> {
    Ok(plays::<MemoryDisk, _>(&rt, rt.alloc(), DISKS)?)
}
