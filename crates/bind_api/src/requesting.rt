//! The request to the program at a component's address.
ghost use Rattle.std.specs.Prelude.{◌≡◌, ◌++◌, Some, codes, IfOk, IsUtf8};
ghost use Rattle.resource_spec.specs.declared.component.ComponentKind.TheVariants as kinds;
ghost use Rattle.resource_spec.specs.Component.{setting_of};
ghost use Rattle.resource_spec.specs.Url.{url_shown};
ghost use Rattle.bind_api.specs.Requested.{address_in, is_absolute, origin_form, request_to};

use crate::Ask;
use api_error::json_fields;
use resource_spec::{Component, Url};
use side_base::{Blob, LinkRequest, NoMemory, Text};
use std::alloc::Global;

const SLASH: u8 = b'/';

/// The address of an output binding.
pub(crate) fn url_of(component: &Component) -> Url<'_>
    requires { component.now.kind ≡ kinds.BindingHttp }
    ensures address { address_in (setting_of component.now (codes "url")) ≡ Some (url_shown result) }
    ensures text { IsUtf8 result.host.now }
{
    let _kind = component.kind();
    match component.settings().find(b"url") {
        Some(_url) => component.url(),
        None => unreachable!(),
    }
}

/// The request to the program at this address that asks for this.
pub(crate) fn request_to(alloc: Global, url: Url<'_>, ask: Ask) -> Result<LinkRequest, NoMemory>
    requires { IsUtf8 url.host.now }
    ensures { IfOk result (λ asked. asked ≡ request_to (url_shown url.entry) ask) }
{
    Ok(LinkRequest {
        host: host_text(alloc, url.host)?,
        port: url.port,
        method: ask.method,
        target: target_of(alloc, url.path, ask.path.bytes())?,
        fields: json_fields(alloc)?,
        body: ask.body,
    })
}

/// The host as a text.
fn host_text(alloc: Global, host: &[u8]) -> Result<Text, NoMemory>
    requires { IsUtf8 host.now }
    ensures { IfOk result (λ text. text ≡ host.now) }
{
    match str::from_utf8(host) {
        Ok(text) => Text::from_str(alloc, text),
        Err(_) => unreachable!(),
    }
}

/// The target: both paths, with a slash before them where they begin with none.
fn target_of(alloc: Global, path: &[u8], more: &[u8]) -> Result<Blob, NoMemory>
    ensures { IfOk result (λ target. target ≡ origin_form (path.now ++ more.now)) }
{
    let mut target = Blob::new(alloc);
    if !is_absolute(path, more) {
        target.push_byte(SLASH)?;
    }
    target.push(path)?;
    target.push(more)?;
    Ok(target)
}

/// Whether the two begin with a slash.
fn is_absolute(path: &[u8], more: &[u8]) -> bool
    ensures { result ≡ is_absolute (path.now ++ more.now) }
{
    match path {
        [first, ..] => *first == SLASH,
        [] => begins_with_slash(more),
    }
}

fn begins_with_slash(path: &[u8]) -> bool
    ensures { result ≡ is_absolute path.now }
{
    match path {
        [first, ..] => *first == SLASH,
        [] => false,
    }
}
