// Targets, their routes and queries.

use crate::given::{has, named, said_of};
use crate::sets::{is_method, method_of, push_allow};
use api_routes::{Methods, Route, RouteErr, Routers, is_shutdown, query_of};
use case_text::{Lines, Section, name_in};
use side_base::{Blob, Method, NoMemory};
use std::alloc::Global;

// Writes a part behind a space, if there is one.
fn push_part(text: &mut Blob, part: &[u8]) -> Result<(), NoMemory> {
    if part.is_empty() {
        return Ok(());
    }
    text.push(b" ")?;
    text.push(part)
}

// Writes a name, and behind it two parts.
fn push_parts(text: &mut Blob, name: &str, first: &[u8], last: &[u8]) -> Result<(), NoMemory> {
    text.push(name.as_bytes())?;
    push_part(text, first)?;
    push_part(text, last)
}

// Writes a route's name, and its parameters in order.
fn push_route(text: &mut Blob, route: &Route) -> Result<(), NoMemory> {
    match route {
        Route::Save { store } => push_parts(text, "Save", store.bytes(), b""),
        Route::Get { store, key } => push_parts(text, "Get", store.bytes(), key.bytes()),
        Route::Delete { store, key } => push_parts(text, "Delete", store.bytes(), key.bytes()),
        Route::Bulk { store } => push_parts(text, "Bulk", store.bytes(), b""),
        Route::Transact { store } => push_parts(text, "Transact", store.bytes(), b""),
        Route::Invoke { app, rest } => push_parts(text, "Invoke", app.bytes(), rest.bytes()),
        Route::Publish { pubsub, topic } => {
            push_parts(text, "Publish", pubsub.bytes(), topic.bytes())
        }
        Route::Binding { name } => push_parts(text, "Binding", name.bytes(), b""),
        Route::ActorCall { kind, id } => { push_parts(text, "ActorCall", kind.bytes(), id.bytes()) }
        Route::ActorGet { kind, id, key } => {
            push_parts(text, "ActorGet", kind.bytes(), id.bytes())?;
            push_part(text, key.bytes())
        }
        Route::ActorChange { kind, id } => {
            push_parts(text, "ActorChange", kind.bytes(), id.bytes())
        }
        Route::Health => push_parts(text, "Health", b"", b""),
        Route::Metadata => push_parts(text, "Metadata", b"", b""),
        Route::SetMetadata { name } => push_parts(text, "SetMetadata", name.bytes(), b""),
        Route::Shutdown => push_parts(text, "Shutdown", b"", b""),
    }
}

// Writes a route, and lets it go.
fn tell_route(text: &mut Blob, route: Route) -> Result<(), NoMemory> {
    let pushed = push_route(text, &route);
    drop(route);
    pushed
}

// Writes the text of a refusal.
fn push_error(alloc: Global, text: &mut Blob, why: RouteErr) -> Result<(), NoMemory> {
    let words = format!(in alloc; "{why}")?;
    text.push(words.as_bytes())
}

// Writes the text of a refusal, and behind it the methods that have a route.
fn push_refusal(alloc: Global, text: &mut Blob, why: RouteErr) -> Result<(), NoMemory> {
    push_error(alloc, text, why)?;
    if let RouteErr::MethodNotAllowed { allow } = why {
        text.push(b" ")?;
        push_allow(allow, text)?;
    }
    Ok(())
}

// Writes what a method and a target come to.
fn push_answer(
    alloc: Global,
    routers: &Routers,
    method: Method,
    target: &[u8],
    text: &mut Blob,
) -> Result<(), NoMemory> {
    match routers.route(alloc, method, target) {
        Ok(route) => tell_route(text, route),
        Err(why) => push_refusal(alloc, text, why),
    }
}

fn yes_or_no(is: bool) -> &'static [u8] {
    if is { b"yes" } else { b"no" }
}

// Adds where a method and a target do not have the answer that they should.
fn play_one(
    alloc: Global,
    routers: &Routers,
    section: &Section<'_>,
    wanted: &[u8],
    ends: &[u8],
    lines: &mut Lines,
) {
    let method = method_of(section.word);
    let target = said_of(alloc, section.name);
    let mut got = Blob::new(alloc);
    let _ = push_answer(alloc, routers, method, target.bytes(), &mut got);
    lines.compare(section.name, wanted, got.bytes());
    let shutdown = yes_or_no(is_shutdown(method, target.bytes()));
    lines.compare("shutdown", ends, shutdown);
    drop(got);
    drop(target);
}

fn play_each(
    alloc: Global,
    routers: &Routers,
    sections: &[Section<'_>],
    wanted: &[u8],
    lines: &mut Lines,
) {
    let ends = yes_or_no(has(sections, "shutdown"));
    for section in sections {
        if is_method(section.word) {
            play_one(alloc, routers, section, wanted, ends, lines);
        }
    }
}

fn play_routed(alloc: Global, routers: &Routers, sections: &[Section<'_>], lines: &mut Lines) {
    let wanted = named(alloc, sections, "answer");
    play_each(alloc, routers, sections, wanted.bytes(), lines);
    drop(wanted);
}

/// Adds where methods and targets do not have the answer that they should: a route, or a refusal.
pub(crate) fn play_routes(alloc: Global, sections: &[Section<'_>], lines: &mut Lines) {
    match Routers::new(alloc) {
        Ok(routers) => {
            play_routed(alloc, &routers, sections, lines);
            drop(routers);
        }
        Err(_) => lines.add_line("no memory", ""),
    }
}

/// Adds where a target does not have the query that it should.
pub(crate) fn play_target(alloc: Global, sections: &[Section<'_>], lines: &mut Lines) {
    let target = named(alloc, sections, "target");
    let query = named(alloc, sections, "query");
    lines.compare("query", query.bytes(), query_of(target.bytes()));
    drop(query);
    drop(target);
}

fn error_of(name: &str) -> RouteErr {
    match name {
        "NotFound" => RouteErr::NotFound,
        "MethodNotAllowed" => RouteErr::MethodNotAllowed {
            allow: Methods::NONE,
        },
        "BadEscape" => RouteErr::BadEscape { at: 23 },
        _ => RouteErr::NoMemory,
    }
}

/// Adds where a refusal does not have the text that it should.
pub(crate) fn play_error(alloc: Global, sections: &[Section<'_>], lines: &mut Lines) {
    let why = error_of(name_in(sections, "error").unwrap_or(""));
    let wanted = named(alloc, sections, "text");
    let mut got = Blob::new(alloc);
    let _ = push_error(alloc, &mut got, why);
    lines.compare("text", wanted.bytes(), got.bytes());
    drop(got);
    drop(wanted);
}
