use super::{Device, cut, digits, list, plays, said, told_by};
use side_base::{Blob, Names, NoMemory, Text};
use side_memory::MemoryFiles;
use side_world::{Files, FilesCall};
use std::alloc::Global;
use std::test::Fail;

// All names, each with a comma behind it.
fn joined(alloc: Global, names: &Names) -> Result<Blob, NoMemory> {
    let mut text = Blob::new(alloc);
    for i in 0..names.len() {
        text.push(names.at(i).bytes())?;
        text.push_byte(b',')?;
    }
    Ok(text)
}

// What a listing answers: its names, or what the refusal says.
fn listed(alloc: Global, files: &mut MemoryFiles, folder: &str) -> Result<Blob, NoMemory> {
    match files.list(folder.as_bytes()) {
        Ok(names) => joined(alloc, &names),
        Err(error) => told_by(alloc, &error),
    }
}

// What a read answers: the bytes, or what the refusal says.
fn read(alloc: Global, files: &mut MemoryFiles, name: &str) -> Result<Blob, NoMemory> {
    match files.read(b"d", name.as_bytes()) {
        Ok(bytes) => Ok(bytes),
        Err(error) => told_by(alloc, &error),
    }
}

// How many bytes a read gives.
fn len(alloc: Global, files: &mut MemoryFiles, name: &str) -> Result<Blob, NoMemory> {
    let len = read(alloc, files, name)?.len();
    digits(alloc, len as u64)
}

// `l` for a listing, and `r` for a read.
fn letter(call: &FilesCall) -> u8 {
    match call {
        FilesCall::List { .. } => b'l',
        FilesCall::Read { .. } => b'r',
    }
}

// The letters of the calls that are told.
fn told(alloc: Global, files: &MemoryFiles) -> Result<Blob, NoMemory> {
    let mut letters = Blob::new(alloc);
    if let Some(calls) = files.calls() {
        for call in calls {
            letters.push_byte(letter(call))?;
        }
    }
    Ok(letters)
}

// A file of so many bytes where a number is given, and else of its own name.
fn bytes(alloc: Global, name: &str, len: &str) -> Result<Blob, NoMemory> {
    match len.parse::<usize>() {
        Ok(len) => Ok(Blob::from_vec(vec![in alloc; b'x'; len]?)),
        Err(_) => said(alloc, name),
    }
}

// Puts a file into the folder `d`.
fn add(alloc: Global, files: &mut MemoryFiles, given: &str) -> Result<Blob, NoMemory> {
    let (name, len) = cut(given);
    let file = Text::from_str(alloc, name)?;
    files.add_file(b"d", file, bytes(alloc, name, len)?)?;
    Ok(Blob::new(alloc))
}

// `new` begins with an empty folder `e` and the listed failing calls.
impl Device for MemoryFiles {
    fn begin(alloc: Global, given: &str) -> Result<MemoryFiles, NoMemory> {
        let mut files = MemoryFiles::new(alloc, list(alloc, given)?);
        files.add_folder(b"e")?;
        Ok(files)
    }

    fn answer(&mut self, alloc: Global, name: &str, given: &str) -> Result<Blob, NoMemory> {
        match name {
            "list" => listed(alloc, self, given),
            "read" => read(alloc, self, given),
            "len" => len(alloc, self, given),
            "told" => told(alloc, self),
            "add" => add(alloc, self, given),
            _ => said(alloc, "unknown"),
        }
    }
}

// A folder lists its resource names, and a file is read up to the limit.
const FILES: &str = "\
new 1
add b.yml
add a.yaml
add B.yaml
add c.txt
add a.yaml.bak
add .yaml
add yaml
add ab.yaml
list d=.yaml,B.yaml,a.yaml,ab.yaml,b.yml,
list d=the files failed
list e=
list f=the files failed
told=llll
new 1
add a.yaml
add b.yaml
add c 1048576
add o 1048577
read b.yaml=b.yaml
read b.yaml=the files failed
read z.yaml=the files failed
read o=a file of 1048577 bytes is too long
len c=1048576
told=rrrrr";

#[test]
fn a_folder_lists_its_names_and_a_file_is_read(rt: HostRuntime) -> Result<(), Fail> {
    Ok(plays::<MemoryFiles, _>(&rt, rt.alloc(), FILES)?)
}
