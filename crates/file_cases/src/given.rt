// What a case gives: the files of a folder, and for which app they are read.

use crate::each::read_each;
use case_text::{
    Lines, Section, first_word, name_in, number_in, push_numbered, said, without_blank_end,
};
use policy_spec::PolicyErr;
use resource_files::{
    Refusal, Resources, ResourcesErr, read_resources, refusal_text, usual_resources,
};
use resource_spec::SpecErr;
use side_base::{Blob, NoMemory, Places, Sequence, Text};
use side_memory::MemoryFiles;
use std::alloc::Global;
use topic_spec::SubErr;

/// The app and the folder of a case that names none.
const APP: &str = "shop";

const FOLDER: &str = "d";

/// Why nothing was read: a text, and the number of a document, if it is one's.
#[derive(Drop)]
pub(crate) struct Reason {
    pub(crate) text: Text,
    pub(crate) doc: Option<usize>,
}

/// What came of reading.
#[derive(Drop)]
pub(crate) enum Outcome {
    /// What the files say, and which of them were refused.
    Read { resources: Resources, told: Text },
    /// Nothing was read, for this reason.
    Refused(Reason),
}

/// Whether a section of this word gives something, and asks nothing.
pub(crate) fn is_given(word: &str) -> bool {
    match word {
        "file"
        | "numbered"
        | "padded"
        | "folder"
        | "failing"
        | "no-folder"
        | "each"
        | "for"
        | "without-subscriptions" => true,
        _ => false,
    }
}

/// The app for which a case is read.
pub(crate) fn app_of(alloc: Global, sections: &[Section<'_>]) -> Result<Text, NoMemory> {
    Text::from_str(alloc, name_in(sections, "for").unwrap_or(APP))
}

// The number that a text begins with, and the text behind it and a space.
fn numbered(text: &str) -> (u64, &str) {
    let (number, name) = first_word(text);
    (u64::from(number_in(number)), name)
}

// The calls that are to fail.
fn failing(alloc: Global, sections: &[Section<'_>]) -> Result<Places, NoMemory> {
    let mut places = Sequence::new(alloc);
    if let Some(number) = name_in(sections, "failing") {
        places.push(number_in(number))?;
    }
    Ok(places)
}

// This text with so many `#` behind it that it has this length.
fn padded(mut text: Blob, len: u64) -> Result<Blob, NoMemory> {
    let missing = len.saturating_sub(text.len() as u64);
    for _ in 0..missing {
        text.push_byte(b'#')?;
    }
    Ok(text)
}

// This text so many times, each time with its number.
fn numbers(alloc: Global, text: &[u8], times: u64) -> Result<Blob, NoMemory> {
    let mut all = Blob::new(alloc);
    push_numbered(&mut all, text, times)?;
    Ok(all)
}

// The name and the bytes of the file that a section is.
fn file_of<'a>(
    alloc: Global,
    section: &Section<'a>,
    text: Blob,
) -> Result<(&'a str, Blob), NoMemory> {
    let (number, name) = numbered(section.name);
    match section.word {
        "numbered" => Ok((name, numbers(alloc, text.bytes(), number)?)),
        "padded" => Ok((name, padded(text, number)?)),
        _ => Ok((section.name, text)),
    }
}

// Adds a file to the folder.
fn add_file(
    alloc: Global,
    files: &mut MemoryFiles,
    name: &str,
    bytes: Blob,
) -> Result<(), NoMemory> {
    files.add_file(FOLDER.as_bytes(), Text::from_str(alloc, name)?, bytes)
}

// Adds the file that a section is.
fn add_section(
    alloc: Global,
    files: &mut MemoryFiles,
    section: &Section<'_>,
) -> Result<(), NoMemory> {
    let text = said(alloc, without_blank_end(section.text))?;
    let (name, bytes) = file_of(alloc, section, text)?;
    add_file(alloc, files, name, bytes)
}

fn is_file(word: &str) -> bool {
    match word {
        "file" | "numbered" | "padded" => true,
        _ => false,
    }
}

// The folder, without files.
fn empty_folder(alloc: Global, sections: &[Section<'_>]) -> Result<MemoryFiles, NoMemory> {
    let mut files = MemoryFiles::new(alloc, failing(alloc, sections)?);
    files.add_folder(FOLDER.as_bytes())?;
    Ok(files)
}

// Adds the files of a case.
fn add_all(
    alloc: Global,
    files: &mut MemoryFiles,
    sections: &[Section<'_>],
) -> Result<(), NoMemory> {
    for section in sections {
        if is_file(section.word) {
            add_section(alloc, files, section)?;
        }
    }
    Ok(())
}

fn doc_of_components(error: &SpecErr) -> Option<usize> {
    match error {
        SpecErr::Missing { doc, .. } => Some(*doc),
        SpecErr::Wrong { doc, .. } => Some(*doc),
        _ => None,
    }
}

fn doc_of_subscriptions(error: &SubErr) -> Option<usize> {
    match error {
        SubErr::Missing { doc, .. } => Some(*doc),
        SubErr::Wrong { doc, .. } => Some(*doc),
        SubErr::Rule { doc, .. } => Some(*doc),
        _ => None,
    }
}

fn doc_of_policies(error: &PolicyErr) -> Option<usize> {
    match error {
        PolicyErr::Missing { doc, .. } => Some(*doc),
        PolicyErr::Wrong { doc, .. } => Some(*doc),
        _ => None,
    }
}

// The number of the document that is refused, if it is told.
fn doc_of(refusal: &Refusal) -> Option<usize> {
    match refusal {
        Refusal::Components(error) => doc_of_components(error),
        Refusal::Subscriptions(error) => doc_of_subscriptions(error),
        Refusal::Policies(error) => doc_of_policies(error),
        _ => None,
    }
}

// The name of a file, and how it is refused.
fn reason_of(alloc: Global, file: &Text, refusal: &Refusal) -> Result<Reason, NoMemory> {
    let text = refusal_text(alloc, refusal)?;
    let mut lines = Lines::new(alloc);
    lines.add(file.as_str());
    lines.add(": ");
    lines.add(text.as_str());
    let doc = doc_of(refusal);
    let text = lines.done()?;
    Ok(Reason { text, doc })
}

fn static_reason(alloc: Global, words: &'static str) -> Reason {
    Reason {
        text: Text::from_static(alloc, words),
        doc: None,
    }
}

// Why nothing was read; `NoMemory` where that is the reason.
fn cause_of(alloc: Global, error: &ResourcesErr) -> Result<Reason, NoMemory> {
    match error {
        ResourcesErr::Refused { file, refusal } => reason_of(alloc, file, refusal),
        ResourcesErr::Failed => Ok(static_reason(alloc, "failed")),
        ResourcesErr::NoMemory => Err(NoMemory),
    }
}

fn refused(reason: Result<Reason, NoMemory>) -> Result<Outcome, NoMemory> {
    match reason {
        Ok(reason) => Ok(Outcome::Refused(reason)),
        Err(error) => Err(error),
    }
}

fn all_read(alloc: Global, resources: Resources) -> Outcome {
    Outcome::Read {
        resources,
        told: Text::from_static(alloc, "it is read\n"),
    }
}

fn outcome_of(alloc: Global, read: Result<Resources, ResourcesErr>) -> Result<Outcome, NoMemory> {
    match read {
        Ok(resources) => Ok(all_read(alloc, resources)),
        Err(error) => refused(cause_of(alloc, &error)),
    }
}

// Reads the folder of a case.
fn read_folder(
    alloc: Global,
    files: &mut MemoryFiles,
    sections: &[Section<'_>],
    app: &Text,
) -> Result<Outcome, NoMemory> {
    let folder = name_in(sections, "folder").unwrap_or(FOLDER);
    let subscribing = name_in(sections, "without-subscriptions").is_none();
    outcome_of(
        alloc,
        read_resources(alloc, files, folder.as_bytes(), app, subscribing),
    )
}

fn read_usual(alloc: Global, app: &Text) -> Result<Outcome, NoMemory> {
    match usual_resources(alloc, app) {
        Ok(resources) => Ok(all_read(alloc, resources)),
        Err(error) => Err(error),
    }
}

// Reads the files of a case.
fn read_files(alloc: Global, sections: &[Section<'_>], app: &Text) -> Result<Outcome, NoMemory> {
    let mut files = empty_folder(alloc, sections)?;
    add_all(alloc, &mut files, sections)?;
    read_folder(alloc, &mut files, sections, app)
}

// Reads a folder, or where none is named.
fn read_together(alloc: Global, sections: &[Section<'_>], app: &Text) -> Result<Outcome, NoMemory> {
    match name_in(sections, "no-folder") {
        Some(_) => read_usual(alloc, app),
        None => read_files(alloc, sections, app),
    }
}

/// Reads what a case gives, for this app.
pub(crate) fn read(
    alloc: Global,
    sections: &[Section<'_>],
    app: &Text,
) -> Result<Outcome, NoMemory> {
    match name_in(sections, "each") {
        Some(_) => read_each(alloc, sections, app),
        None => read_together(alloc, sections, app),
    }
}
