//! The devices of files, clocks and numbers, and what std has as sources and sinks.
use host_devices::{HostClock, HostDisk, HostFiles, StdSink, StdSource};
use net_edge::HostOutside;
use side_base::Names;
use side_world::{Clock, Disk, Failed, Files, FilesErr, Outside, gather, send};
use std::io::Write;
use std::process::Abort;
use std::test::Fail;
use std::{fs, io};

// A writer that takes one byte at a time, and after three takes nothing.
#[derive(Clone, Copy)]
struct Narrow {
    taken: usize,
}

impl Write for Narrow {
    fn write(&mut self, piece: &[u8]) -> io::Result<usize> {
        if self.taken >= 3 || piece.is_empty() {
            return Ok(0);
        }
        self.taken += 1;
        Ok(1)
    }

    fn flush(&mut self) -> io::Result<()> {
        Ok(())
    }
}

#[test]
fn a_reader_is_a_source(rt: HostRuntime) -> Result<(), Fail> {
    let bytes: &[u8] = b"a request";
    let gathered = gather(rt.alloc(), &mut StdSource::new(bytes), 100)?;
    assert_eq!(rt; gathered.bytes(), bytes);
    Ok(())
}

#[test]
fn a_writer_is_a_sink(rt: HostRuntime) -> Result<(), Fail> {
    let mut written = Vec::new(rt.alloc());
    send(&mut StdSink::new(&mut written), b"a response")?;
    assert_eq!(rt; written.as_slice(), b"a response".as_slice());
    assert_eq!(rt;
        send(&mut StdSink::new(Narrow { taken: 0 }), b"abc"),
        Ok(())
    );
    assert_eq!(rt;
        send(&mut StdSink::new(Narrow { taken: 0 }), b"abcd"),
        Err(Failed)
    );
    Ok(())
}

// Whether there can't be a disk at this path.
fn is_refused<R: fs::Files<File = fs::File>>(rt: &R, path: &str) -> bool {
    HostDisk::open(rt, path).is_err()
}

// The length of the disk at this path.
fn disk_len<R: fs::Files<File = fs::File>>(rt: &R, path: &str) -> Result<u64, Fail> {
    let len = HostDisk::open(rt, path)?.len();
    Ok(len?)
}

// Writes to a new disk.
fn write_to(rt: &impl Abort, disk: &mut HostDisk) -> Result<(), Fail> {
    assert_eq!(rt; disk.len()?, 0);
    disk.write_at(0, b"journal")?;
    disk.write_at(4, b"eying")?;
    disk.sync()?;
    Ok(())
}

// A new disk at this path takes what is written, and is nobody else's meanwhile.
fn check_writes<R: fs::Files<File = fs::File> + Abort>(rt: &R, path: &str) -> Result<(), Fail> {
    let mut disk = HostDisk::open(rt, path)?;
    let written = write_to(rt, &mut disk);
    assert!(rt; is_refused(rt, path));
    drop(disk);
    written
}

// What was written is read from a disk.
fn read_from(rt: &impl Abort, disk: &mut HostDisk) -> Result<(), Fail> {
    assert_eq!(rt; disk.len()?, 9);
    let mut piece = [0; 5];
    disk.read_at(3, &mut piece)?;
    assert_eq!(rt; piece, *b"reyin");
    Ok(())
}

// The same of the disk at this path.
fn check_reads<R: fs::Files<File = fs::File> + Abort>(rt: &R, path: &str) -> Result<(), Fail> {
    let mut disk = HostDisk::open(rt, path)?;
    read_from(rt, &mut disk)
}

// That each call fails after a sync that failed, no test shows, as no regular file of the host's fails to sync: the clauses `loses`,
// `lost` and `stays` of `HostDisk` say it.
#[test]
fn a_file_is_a_disk(rt: HostRuntime) -> Result<(), Fail> {
    let path = "a_file_is_a_disk.bytes";
    check_writes(&rt, path)?;
    check_reads(&rt, path)?;
    assert_eq!(rt; disk_len(&rt, path)?, 9);
    fs::remove_file(&rt, path)?;
    Ok(())
}

#[test]
fn a_disk_is_a_regular_file(rt: HostRuntime) -> Result<(), Fail> {
    let folder = "a_disk_is_a_regular_file";
    fs::create_dir(&rt, folder)?;
    assert!(rt; is_refused(&rt, folder));
    assert!(rt; is_refused(&rt, "/dev/null"));
    assert_eq!(rt; disk_len(&rt, "a_disk_is_a_regular_file/disk")?, 0);
    fs::remove_dir_all(&rt, folder)?;
    Ok(())
}

// Writes a file of a folder, whose content is its name.
fn write_named<R: fs::Files + AllocGlobal>(rt: &R, folder: &str, name: &str) -> io::Result<()> {
    let alloc = rt.alloc();
    let path = format!(in alloc; "{folder}/{name}")?;
    fs::write(rt, path.as_str(), name)
}

// Whether these are the names, in order.
fn are(names: &Names, wanted: &[&str]) -> bool {
    if names.len() != wanted.len() {
        return false;
    }
    for (i, name) in wanted.iter().enumerate() {
        if i >= names.len() || names.at(i).as_str() != *name {
            return false;
        }
    }
    true
}

// Whether these are the names in a folder, in order.
fn lists<F: Files>(files: &mut F, folder: &str, wanted: &[&str]) -> Result<bool, FilesErr> {
    Ok(are(&files.list(folder.as_bytes())?, wanted))
}

// Whether this is the content of a file.
fn has<F: Files>(
    files: &mut F,
    folder: &str,
    name: &[u8],
    content: &[u8],
) -> Result<bool, FilesErr> {
    Ok(files.read(folder.as_bytes(), name)?.bytes() == content)
}

// The length of a file, or why it isn't read.
fn file_len<F: Files>(files: &mut F, folder: &str, name: &[u8]) -> Result<usize, FilesErr> {
    Ok(files.read(folder.as_bytes(), name)?.len())
}

// Whether a folder with four such files is read as it is to be, and one that is none isn't.
fn reads_folder<F: Files>(files: &mut F, folder: &str) -> Result<bool, FilesErr> {
    Ok(
        lists(files, folder, &["B.yaml", "a.yaml", "b.yml"])?
            && has(files, folder, b"a.yaml", b"a.yaml")?
            && file_len(files, folder, b"z.yaml") == Err(FilesErr::Failed)
            && lists(files, "no such folder", &[]) == Err(FilesErr::Failed),
    )
}

#[test]
fn a_folder_of_the_host_is_read(rt: HostRuntime) -> Result<(), Fail> {
    let folder = "a_folder_of_the_host_is_read";
    fs::create_dir(&rt, folder)?;
    for name in ["b.yml", "a.yaml", "B.yaml", "c.txt"] {
        write_named(&rt, folder, name)?;
    }
    assert_eq!(rt; reads_folder(&mut HostFiles::new(rt), folder), Ok(true));
    fs::remove_dir_all(&rt, folder)?;
    Ok(())
}

// Writes so many letters to a file.
fn write_letters<R: fs::Files + AllocGlobal>(rt: &R, path: &str, count: usize) -> io::Result<()> {
    let alloc = rt.alloc();
    let letters: Vec<u8> = vec![in alloc; b'x'; count]?;
    fs::write(rt, path, letters.as_slice())
}

#[test]
fn a_long_file_is_refused(rt: HostRuntime) -> Result<(), Fail> {
    let folder = "a_long_file_is_refused";
    fs::create_dir(&rt, folder)?;
    write_letters(&rt, "a_long_file_is_refused/long", 1_048_577)?;
    write_letters(&rt, "a_long_file_is_refused/most", 1_048_576)?;
    let mut files = HostFiles::new(rt);
    assert_eq!(rt;
        file_len(&mut files, folder, b"long"),
        Err(FilesErr::TooLong { len: 1_048_577 })
    );
    assert_eq!(rt; file_len(&mut files, folder, b"most")?, 1_048_576);
    fs::remove_dir_all(&rt, folder)?;
    Ok(())
}

#[test]
fn the_clock_of_the_host_goes_on(rt: HostRuntime) -> Result<(), Fail> {
    let mut clock = HostClock::new(rt)?;
    let first = clock.now().ms();
    clock.pause(2);
    let second = clock.now().ms();
    assert!(rt; first > 1_600_000_000_000);
    assert!(rt; second > first);
    Ok(())
}

// Two start numbers of an outside, which is let go.
fn numbers_of<O: Outside + Drop>(outside: O) -> (u64, u64) {
    let mut outside = outside;
    (outside.start_number(), outside.start_number())
}

#[test]
fn start_numbers_differ(rt: HostRuntime) -> Result<(), Fail> {
    let (first, second) = numbers_of(HostOutside::new(rt)?);
    let (third, _) = numbers_of(HostOutside::new(rt)?);
    assert_ne!(rt; first, second);
    assert_ne!(rt; first, third);
    Ok(())
}
