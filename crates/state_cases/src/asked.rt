// The request of a case, and the command that it asks for.
ghost use Rattle.std.specs.Prelude.{IfSome, IfOk};
ghost use Rattle.state_api.specs.Asked.{IsActorState, IsState};
ghost use Rattle.state_api.specs.Response.{IsCut};

use crate::given::{text, text_in};
use api_routes::Route;
use case_text::{Section, first_word, joined_text, name_in, text_of};
use side_base::{Blob, Field, Fields, Method, Request, Text};
use state_api::{StateErr, actor_command, command};
use state_core::{Cmd, Prefix};
use std::alloc::Global;

// The key of a request: the words behind it, and what the sections of keys say.
fn key_of(alloc: Global, sections: &[Section<'_>], words: &str) -> Text {
    let mut key = text(alloc, words);
    let _ = key.push(text_in(alloc, joined_text(alloc, sections, "key").bytes()).as_str());
    key
}

fn route_of(word: &str, store: Text, key: Text) -> Option<Route>
    ensures { IfSome result IsState }
{
    match word {
        "save" => Some(Route::Save { store }),
        "get" => Some(Route::Get { store, key }),
        "delete" => Some(Route::Delete { store, key }),
        "bulk" => Some(Route::Bulk { store }),
        "transact" => Some(Route::Transact { store }),
        _ => None,
    }
}

fn add_field(alloc: Global, fields: &mut Fields, section: &Section<'_>) {
    let _ = fields.push(Field {
        name: text(alloc, section.name),
        value: text_of(alloc, section),
    });
}

fn fields(alloc: Global, sections: &[Section<'_>]) -> Fields {
    let mut fields = Fields::new(alloc);
    for section in sections {
        if section.word == "field" {
            add_field(alloc, &mut fields, section);
        }
    }
    fields
}

fn target(alloc: Global, sections: &[Section<'_>]) -> Blob {
    let mut target = Blob::new(alloc);
    let _ = target.push(name_in(sections, "target").unwrap_or("/").as_bytes());
    target
}

fn request_of(alloc: Global, sections: &[Section<'_>]) -> Request {
    Request {
        method: Method::Post,
        target: target(alloc, sections),
        minor: 1,
        fields: fields(alloc, sections),
        body: joined_text(alloc, sections, "body"),
    }
}

fn prefix_of(alloc: Global, sections: &[Section<'_>]) -> Prefix {
    match name_in(sections, "prefix") {
        Some(words) => Prefix {
            text: Some(text(alloc, words)),
        },
        None => Prefix { text: None },
    }
}

// The route of the state of an actor: its kind and its id, and the key of a get.
fn actor_route_of(alloc: Global, sections: &[Section<'_>], word: &str, words: &str) -> Option<Route>
    ensures { IfSome result IsActorState }
{
    let (kind, rest) = first_word(words);
    let (id, key) = first_word(rest);
    let kind = text(alloc, kind);
    let id = text(alloc, id);
    match word {
        "actor-get" => Some(Route::ActorGet {
            kind,
            id,
            key: key_of(alloc, sections, key),
        }),
        "actor-change" => Some(Route::ActorChange { kind, id }),
        _ => None,
    }
}

// The command that a request of the state of an actor asks for.
fn asked_of_actor(
    alloc: Global,
    sections: &[Section<'_>],
    word: &str,
    words: &str,
) -> Option<Result<Cmd, StateErr>>
    ensures { IfSome result (λ asked. IfOk asked IsCut) }
{
    let route = actor_route_of(alloc, sections, word, words)?;
    let app = text(alloc, name_in(sections, "app").unwrap_or("a"));
    Some(actor_command(alloc, &route, &request_of(alloc, sections), &app))
}

// The command that a request of the state API asks for.
fn asked_of_store(
    alloc: Global,
    sections: &[Section<'_>],
    word: &str,
    words: &str,
) -> Option<Result<Cmd, StateErr>>
    ensures { IfSome result (λ asked. IfOk asked IsCut) }
{
    let route = route_of(word, text(alloc, "s"), key_of(alloc, sections, words))?;
    let request = request_of(alloc, sections);
    Some(command(alloc, &route, &request, &prefix_of(alloc, sections)))
}

/// The command that the request of a case asks for; `None` where it names no route.
pub(crate) fn asked(
    alloc: Global,
    sections: &[Section<'_>],
    words: &str,
) -> Option<Result<Cmd, StateErr>>
    ensures { IfSome result (λ asked. IfOk asked IsCut) }
{
    let (word, rest) = first_word(words);
    match asked_of_store(alloc, sections, word, rest) {
        Some(asked) => Some(asked),
        None => asked_of_actor(alloc, sections, word, rest),
    }
}
