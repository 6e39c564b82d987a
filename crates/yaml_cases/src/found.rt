// What is found in a file.
ghost use Rattle.yaml_subset.specs.Docs.{IsPart};

use crate::tree::add_part;
use case_text::{Lines, number_in};
use side_base::NoMemory;
use std::alloc::Global;
use yaml_subset::{At, Docs, Part};

// The names of a path, which stand behind one another, with a slash between them.
fn names_of<'a>(alloc: Global, path: &'a str) -> Result<Vec<&'a str>, NoMemory> {
    path.split('/').collect(alloc)
}

// What stands at the end of a path from a part.
fn add_end(docs: &Docs, p: Part, names: &[&str], lines: &mut Lines)
    requires { IsPart docs.now p }
{
    match docs.at(p, names) {
        At::Absent => lines.add_line("absent", ""),
        At::Wrong(passed) => lines.add_number_line("wrong ", passed as u64),
        At::Here(here) => add_part(docs, here, lines),
    }
}

fn add_at_names(docs: &Docs, names: &[&str], lines: &mut Lines) {
    match docs.root(0) {
        Some(p) => add_end(docs, p, names, lines),
        None => {}
    }
}

// The member of the last name, in the member of the name before it, and so on.
fn add_member(docs: &Docs, from: Part, path: &str, lines: &mut Lines)
    requires { IsPart docs.now from }
{
    let mut p = from;
    for name in path.split('/') {
        match docs.get(p, name.as_bytes()) {
            Some(member) => p = member,
            None => {
                lines.add_line("none", "");
                return;
            }
        }
    }
    add_part(docs, p, lines);
}

/// What stands at the end of a path, which begins at the first document.
pub(crate) fn add_at(alloc: Global, docs: &Docs, path: &str, lines: &mut Lines) {
    match names_of(alloc, path) {
        Ok(names) => add_at_names(docs, &names, lines),
        Err(_) => lines.add_line("no memory", ""),
    }
}

/// The member of a member, and so on, of the first document.
pub(crate) fn add_get(docs: &Docs, path: &str, lines: &mut Lines) {
    match docs.root(0) {
        Some(p) => add_member(docs, p, path, lines),
        None => {}
    }
}

/// The document of this number.
pub(crate) fn add_document(docs: &Docs, number: &str, lines: &mut Lines) {
    match docs.root(number_in(number) as usize) {
        Some(p) => add_part(docs, p, lines),
        None => lines.add_line("none", ""),
    }
}
