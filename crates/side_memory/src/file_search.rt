ghost use Rattle.std.specs.Prelude.{◌≡◌, ◌<◌, ◌≤◌, ◌↔◌, ℕ, List, Contains, Some, IsSome, IfOk, IsErrOf, length, option_map};
ghost use Rattle.side_world.specs.Files.{IsListing, IsYamlName};
ghost use Rattle.side_world.specs.declared.files.FilesErr.TheVariants as refused;
ghost use Rattle.side_world.specs.declared.files.FilesCall.TheVariants as call;
ghost use Rattle.side_memory.specs.MemoryFiles.{bytes_at, is_one_of};

use crate::memory_files::MemoryFile;
use side_base::{Blob, Names, NoMemory, Text};
use side_world::{FilesCall, FilesErr, yaml_names};
use std::alloc::Global;

/// Whether this folder is one of those.
pub(crate) fn is_there(folders: &[Blob], folder: &[u8]) -> bool
    ensures { result ≡ is_one_of folders.now folder.now }
{
    for i in 0..folders.len() {
        if folders[i].bytes() == folder {
            return true;
        }
    }
    false
}

/// The bytes of the first file of this name in this folder.
pub(crate) fn find<'a>(files: &'a [MemoryFile], folder: &[u8], name: &[u8]) -> Option<&'a Blob>
    ensures { option_map (λ b. b.now) result ≡ bytes_at files.now folder.now name.now }
{
    for i in 0..files.len() {
        let file = &files[i];
        if file.folder.bytes() == folder && file.name.bytes() == name {
            return Some(&file.bytes);
        }
    }
    None
}

/// A copy of the bytes of a file, which are at most 1,048,576.
pub(crate) fn copied(bytes: &Blob) -> Result<Blob, FilesErr>
    ensures same { IfOk result (λ copy. copy ≡ bytes.now) }
    ensures within { IfOk result (λ copy. length copy ≤ 1048576) }
    ensures too_long { (len : ℕ) → IsErrOf result (refused.TooLong len) → (1048576 < len) × (length bytes.now ≡ len) }
    ensures no_fault { IsErrOf result refused.Failed → ⊥ }
{
    if bytes.len() > 1_048_576 {
        return Err(FilesErr::TooLong {
            len: bytes.len() as u128,
        });
    }
    match bytes.copy() {
        Ok(copy) => Ok(copy),
        Err(_) => Err(FilesErr::NoMemory),
    }
}

/// The names of the resource files in a folder.
pub(crate) fn listing(alloc: Global, files: &[MemoryFile], folder: &[u8]) -> Result<Names, NoMemory>
    ensures names { IfOk result IsListing }
    ensures all { IfOk result (λ names. (name : List ℕ) → Contains names name ↔ (IsYamlName name × IsSome (bytes_at files.now folder.now name))) }
{
    let names = names_in(alloc, files, folder)?;
    yaml_names(alloc, &names)
}

fn names_in(alloc: Global, files: &[MemoryFile], folder: &[u8]) -> Result<Vec<Text>, NoMemory>
    ensures { IfOk result (λ names. (name : List ℕ) → Contains names.items name ↔ IsSome (bytes_at files.now folder.now name)) }
{
    let mut names = Vec::new(alloc);
    for i in 0..files.len() {
        let file = &files[i];
        if file.folder.bytes() == folder {
            names.push(file.name.copy()?)?;
        }
    }
    Ok(names)
}

/// A note of a read.
pub(crate) fn read_note(alloc: Global, folder: &[u8], name: &[u8]) -> Result<FilesCall, NoMemory>
    ensures { IfOk result (λ note. note ≡ call.Read folder.now name.now) }
{
    Ok(FilesCall::Read {
        folder: Blob::from_bytes(alloc, folder)?,
        name: Blob::from_bytes(alloc, name)?,
    })
}
