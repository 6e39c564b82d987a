// What the words of a case say. What finds no memory is left out: then the case differs, and is played again.
ghost use Rattle.std.specs.Prelude.{◌≡◌, [], IfSome, IsTrue};
ghost use Rattle.resource_spec.specs.declared.component.ComponentKind.TheVariants as kinds;
ghost use Rattle.resource_spec.specs.Component.{HasUrl};

use app_peers::{PeerList, read_peers};
use case_text::{Section, first_word, joined_text, name_in};
use case_world::{number, request_fields, text};
use resource_spec::{Component, ComponentKind, Setting, Settings, url_of};
use side_base::{Blob, Method, Request, Text};
use std::alloc::Global;

fn method_of(word: &str) -> Method {
    match word {
        "get" => Method::Get,
        "head" => Method::Head,
        "put" => Method::Put,
        "patch" => Method::Patch,
        "delete" => Method::Delete,
        "options" => Method::Options,
        _ => Method::Post,
    }
}

/// The request of all calls of a case. Its target is not asked for by any of them.
pub(crate) fn request_of(alloc: Global, sections: &[Section<'_>]) -> Request {
    Request {
        method: method_of(name_in(sections, "method").unwrap_or("post")),
        target: Blob::new(alloc),
        minor: 1,
        fields: request_fields(alloc, sections),
        body: joined_text(alloc, sections, "body"),
    }
}

/// The own app, and its port if it has one.
#[derive(Drop)]
pub(crate) struct OwnApp {
    pub(crate) id: Text,
    pub(crate) port: Option<u16>,
}

/// The own app of a case; `a` without a port where the case says none.
pub(crate) fn own_app(alloc: Global, sections: &[Section<'_>]) -> OwnApp {
    let (id, port) = first_word(name_in(sections, "app").unwrap_or("a"));
    let port = u16::try_from(number(port)).unwrap_or(0);
    OwnApp {
        id: text(alloc, id),
        port: if port == 0 { None } else { Some(port) },
    }
}

/// The other apps of a case.
pub(crate) fn peers_of(alloc: Global, sections: &[Section<'_>]) -> PeerList {
    match name_in(sections, "peers") {
        Some(list) => read_peers(alloc, "", list).unwrap_or(PeerList::new(alloc)),
        None => PeerList::new(alloc),
    }
}

// Whether an address is among the settings.
fn has_url(settings: &Settings) -> bool
    ensures { IsTrue result → HasUrl (record { name = []; kind = kinds.BindingHttp; version = []; settings = settings.now }) }
{
    match settings.find(b"url") {
        Some(url) => url_of(url.bytes()).is_some(),
        None => false,
    }
}

// The setting of an address.
fn settings_of(alloc: Global, url: &str) -> Settings {
    let mut settings = Settings::new(alloc);
    let _ = settings.push(Setting {
        name: Text::from_static(alloc, "url"),
        value: text(alloc, url),
    });
    settings
}

/// A binding of this address; `None` where it is none.
pub(crate) fn binding_of(alloc: Global, url: &str) -> Option<Component>
    ensures { IfSome result (λ c. c.kind ≡ kinds.BindingHttp) }
{
    let settings = settings_of(alloc, url);
    if !has_url(&settings) {
        return None;
    }
    Some(Component::new(
        Text::from_static(alloc, "h"),
        ComponentKind::BindingHttp,
        Text::from_static(alloc, "v1"),
        settings,
    ))
}
