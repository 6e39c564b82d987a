ghost use Rattle.std.specs.Prelude.{◌≡◌, None};

use crate::StdSource;
use crate::fault_count::FaultCount;
use side_base::{Blob, Names, Text};
use side_world::{Failed, Files, FilesErr, GatherErr, gather, yaml_names};
use std::fs::{self, OpenFile};
use std::io::{self, ErrorKind};

/// The greatest length of a resource file.
const FILE_LIMIT: usize = 1_048_576;

/// The files of the host. Each error of the host is a fault, but for want of memory; and so is a name that isn't UTF-8.
#[derive(Drop)]
pub struct HostFiles<R> {
    rt: R,
    faults: FaultCount,
}

impl<R: fs::Files + AllocGlobal + Clone + Drop> HostFiles<R> {
    /// The files that this handle reaches.
    pub fn new(rt: R) -> Self
        ensures { ⟦<HostFiles<R> as Files>⟧.faults result ≡ 0 }
    {
        HostFiles {
            rt,
            faults: FaultCount::none(),
        }
    }
}

impl<R: fs::Files + AllocGlobal + Clone + Drop> HostFiles<R> {
    ghost use Rattle.std.specs.Prelude.{◌≡◌, ◌≤◌, ◌<◌, ℕ, IfOk, IsErr, IsErrOf, length};
    ghost use Rattle.side_world.specs.Files.{CountsFault};
    ghost use Rattle.side_world.specs.declared.files.FilesErr.TheVariants as refused;

    // An error of the host: want of memory, or a fault.
    fn refused<T>(&mut self, error: io::Error) -> Result<T, FilesErr>
        ensures refused { IsErr result }
        ensures no_length { (len : ℕ) → IsErrOf result (refused.TooLong len) → ⊥ }
        ensures faults { CountsFault result self.old.faults self.new.faults }
        ensures no_fewer { self.old.faults ≤ self.new.faults }
    {
        if error.kind() == ErrorKind::OutOfMemory {
            return Err(FilesErr::NoMemory);
        }
        let Failed = self.faults.fail();
        Err(FilesErr::Failed)
    }

    // All bytes of an open file, which may have grown since its length was asked for.
    fn read_whole(&mut self, file: R::File) -> Result<Blob, FilesErr>
        ensures within { IfOk result (λ bytes. length bytes ≤ 1048576) }
        ensures too_long { (len : ℕ) → IsErrOf result (refused.TooLong len) → 1048576 < len }
        ensures faults { CountsFault result self.old.faults self.new.faults }
        ensures no_fewer { self.old.faults ≤ self.new.faults }
    {
        match gather(self.rt.alloc(), &mut StdSource::new(file), FILE_LIMIT + 1) {
            Ok(bytes) if bytes.len() <= FILE_LIMIT => Ok(bytes),
            Ok(bytes) => Err(FilesErr::TooLong {
                len: bytes.len() as u128,
            }),
            Err(GatherErr::NoMemory) => Err(FilesErr::NoMemory),
            Err(GatherErr::Failed) => {
                let Failed = self.faults.fail();
                Err(FilesErr::Failed)
            }
        }
    }
}

impl<R: fs::Files + AllocGlobal + Clone + Drop> Files for HostFiles<R> {
    ghost folders = { λ _. None };

    ghost calls = { λ _. None };

    ghost faults = { λ f. f.faults };

    fn list(&mut self, folder: &[u8]) -> Result<Names, FilesErr> {
        match names_in(&self.rt, folder) {
            Ok(names) => match yaml_names(self.rt.alloc(), &names) {
                Ok(names) => Ok(names),
                Err(_) => Err(FilesErr::NoMemory),
            },
            Err(error) => self.refused(error),
        }
    }

    fn read(&mut self, folder: &[u8], name: &[u8]) -> Result<Blob, FilesErr> {
        match open(&self.rt, folder, name) {
            Ok((_, len)) if len > FILE_LIMIT as u64 => Err(FilesErr::TooLong { len: len as u128 }),
            Ok((file, _)) => self.read_whole(file),
            Err(error) => self.refused(error),
        }
    }
}

/// All names in a folder, in the order in which the host gives them.
fn names_in<R: fs::Files + AllocGlobal + Clone + Drop>(
    rt: &R,
    folder: &[u8],
) -> io::Result<Vec<Text>> {
    let mut names = Vec::new(rt.alloc());
    for entry in fs::read_dir(rt, text_of(folder)?)? {
        let entry = entry?;
        names.push(Text::from_str(rt.alloc(), entry.file_name())?)?;
    }
    Ok(names)
}

/// A file of a folder, and its length.
fn open<R: fs::Files + AllocGlobal>(
    rt: &R,
    folder: &[u8],
    name: &[u8],
) -> io::Result<(R::File, u64)> {
    let mut path = String::from_str(rt.alloc(), text_of(folder)?)?;
    path.push('/')?;
    path.push_str(text_of(name)?)?;
    let file = fs::open(rt, path.as_str())?;
    let len = file.metadata()?.len();
    Ok((file, len))
}

fn text_of(bytes: &[u8]) -> io::Result<&str> {
    match str::from_utf8(bytes) {
        Ok(text) => Ok(text),
        Err(_) => Err(io::Error::from(ErrorKind::InvalidInput)),
    }
}
