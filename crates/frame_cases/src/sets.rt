// Methods and sets of them.

use crate::given::{is_among, named};
use api_routes::Methods;
use case_text::{Lines, Section, name_in};
use side_base::{Blob, Method, NoMemory};
use std::alloc::Global;

/// The methods in the order in which a case names them.
const NAMES: &str = "DELETE GET HEAD OPTIONS PATCH POST PUT OTHER";

/// The method of a name; another word is another method.
pub(crate) fn method_of(name: &str) -> Method {
    match name {
        "DELETE" => Method::Delete,
        "GET" => Method::Get,
        "HEAD" => Method::Head,
        "OPTIONS" => Method::Options,
        "PATCH" => Method::Patch,
        "POST" => Method::Post,
        "PUT" => Method::Put,
        _ => Method::Other,
    }
}

/// Whether a word names a method.
pub(crate) fn is_method(word: &str) -> bool {
    is_among(NAMES, word)
}

fn set_of(names: &str) -> Methods {
    Methods {
        delete: is_among(names, "DELETE"),
        get: is_among(names, "GET"),
        head: is_among(names, "HEAD"),
        options: is_among(names, "OPTIONS"),
        patch: is_among(names, "PATCH"),
        post: is_among(names, "POST"),
        put: is_among(names, "PUT"),
    }
}

fn add_if(is: bool, name: &str, had: &mut Lines) {
    if is {
        had.add(name);
    }
}

// Adds the names of the methods that a set has, a space behind each.
fn add_had(set: Methods, had: &mut Lines) {
    add_if(set.has(Method::Delete), "DELETE ", had);
    add_if(set.has(Method::Get), "GET ", had);
    add_if(set.has(Method::Head), "HEAD ", had);
    add_if(set.has(Method::Options), "OPTIONS ", had);
    add_if(set.has(Method::Patch), "PATCH ", had);
    add_if(set.has(Method::Post), "POST ", had);
    add_if(set.has(Method::Put), "PUT ", had);
    add_if(set.has(Method::Other), "OTHER ", had);
}

/// Appends the text of a set. A call that found no memory is made again.
pub(crate) fn push_allow(set: Methods, out: &mut Blob) -> Result<(), NoMemory> {
    match set.push_allow(out) {
        Ok(()) => Ok(()),
        Err(_) => set.push_allow(out),
    }
}

fn compare_had(alloc: Global, set: Methods, wanted: &str, lines: &mut Lines) {
    let mut had = Lines::new(alloc);
    add_had(set, &mut had);
    lines.compare("has", wanted.as_bytes(), had.as_str().trim_end().as_bytes());
    drop(had);
}

// Writes what stands before the text of a set, and that text.
fn push_line(set: Methods, out: &mut Blob) -> Result<(), NoMemory> {
    out.push(b"Allow: ")?;
    push_allow(set, out)
}

fn compare_allow(alloc: Global, set: Methods, wanted: &[u8], lines: &mut Lines) {
    let mut out = Blob::new(alloc);
    let _ = push_line(set, &mut out);
    lines.compare("allow", wanted, out.bytes());
    drop(out);
}

/// Adds where a set of methods does not have those that it should, or is not written as it should.
pub(crate) fn play_set(alloc: Global, sections: &[Section<'_>], lines: &mut Lines) {
    let set = set_of(name_in(sections, "set").unwrap_or(""));
    let wanted = named(alloc, sections, "allow");
    compare_had(alloc, set, name_in(sections, "has").unwrap_or(""), lines);
    compare_allow(alloc, set, wanted.bytes(), lines);
    drop(wanted);
}
