ghost use Rattle.std.specs.Prelude.{◌≡◌, ◌≤◌, ◌<◌, ◌+◌, ◌^◌, ◌==◌, not, ℕ, List, [], ◌∷◌, length, drop};
ghost use Rattle.std.specs.List.{prefix_len};
ghost use Rattle.api_routes.specs.Parameters.{Begins, Cuts, Decodes, DecodesInvoked, DecodesRoute, DecodesThree, DecodesTwo, HasNth, Stands, parts_of};
ghost use Rattle.api_routes.specs.Path.{Parameter as Defined};

use crate::table::{Kind, Part, parts_of};
use crate::{Route, RouteErr};
use percent_encoding::{DecodeError, percent_decode};
use side_base::{Blob, Text};
use std::alloc::Global;

const SLASH: u8 = b'/';

/// A parameter as it stands in the target: its bytes, and the place of the first one.
#[derive(Clone, Copy)]
struct Parameter<'a> {
    at: usize,
    bytes: &'a [u8],
}

fn segment_len(text: &[u8]) -> usize
    ensures value { result ≡ prefix_len (λ byte. not (byte == 47)) text.now }
    ensures within { result ≤ length text.now }
{
    text.iter().take_while(|byte| **byte != SLASH).count()
}

/// The segment after the slash that a path begins with, and what is left of the path after it.
fn split_segment(path: &[u8]) -> (&[u8], &[u8])
    requires { (segment rest : List ℕ) × Begins path.now segment rest }
    ensures { (segment rest : List ℕ) → Begins path.now segment rest → (result.0.now ≡ segment) × (result.1.now ≡ rest) }
{
    let (_, text) = path.split_at(1);
    text.split_at(segment_len(text))
}

/// The parameter that so many others come before, of a path that begins at a place of the target and has these parts.
fn nth_parameter<'a>(at: usize, parts: &[Part], path: &'a [u8], nth: usize) -> Parameter<'a>
    requires within { at + length path.now < 2 ^ 63 }
    requires some { HasNth at parts.now path.now nth }
    ensures { (parameters others : List Defined) (parameter : Defined) → Cuts at parts.now path.now parameters → drop nth parameters ≡ parameter ∷ others → (result.at ≡ parameter.at) × (result.bytes.now ≡ parameter.bytes) }
{
    match parts.split_first() {
        None => unreachable!(),
        Some((part, others)) => match part {
            Part::Literal => {
                let (segment, rest) = split_segment(path);
                nth_parameter(at + 1 + segment.len(), others, rest, nth)
            }
            Part::Segment => {
                let (bytes, rest) = split_segment(path);
                if nth == 0 {
                    return Parameter { at: at + 1, bytes };
                }
                nth_parameter(at + 1 + bytes.len(), others, rest, nth - 1)
            }
            Part::Tail => {
                let (_, bytes) = path.split_at(1);
                Parameter { at: at + 1, bytes }
            }
        },
    }
}

/// The text that a parameter stands for. It is copied once.
fn text_of(alloc: Global, parameter: Parameter<'_>) -> Result<Text, RouteErr>
    ensures { (defined : Defined) → parameter.entry.at ≡ defined.at → parameter.entry.bytes.now ≡ defined.bytes → Decodes defined result }
{
    match percent_decode(parameter.bytes).decode_utf8(alloc) {
        Ok(text) => match text.into_owned(alloc) {
            Ok(text) => Ok(Text::from_string(text)),
            Err(_) => Err(RouteErr::NoMemory),
        },
        Err(DecodeError::OutOfMemory) => Err(RouteErr::NoMemory),
        Err(DecodeError::Utf8(_)) => Err(RouteErr::BadEscape { at: parameter.at }),
    }
}

/// The parameter of a route that so many others come before.
fn parameter_of<'a>(kind: Kind, path: &'a [u8], nth: usize) -> Parameter<'a>
    requires { HasNth 0 (parts_of kind) path.now nth }
    ensures { (parameters others : List Defined) (parameter : Defined) → Stands kind path.now parameters → drop nth parameters ≡ parameter ∷ others → (result.at ≡ parameter.at) × (result.bytes.now ≡ parameter.bytes) }
{
    nth_parameter(0, parts_of(kind), path, nth)
}

/// The text of the one parameter of a route.
fn one_text(alloc: Global, kind: Kind, path: &[u8]) -> Result<Text, RouteErr>
    requires { HasNth 0 (parts_of kind) path.now 0 }
    ensures { (first : Defined) → Stands kind path.now (first ∷ []) → Decodes first result }
{
    text_of(alloc, parameter_of(kind, path, 0))
}

/// The texts of the first two parameters of a route.
fn two_texts(alloc: Global, kind: Kind, path: &[u8]) -> Result<(Text, Text), RouteErr>
    requires first { HasNth 0 (parts_of kind) path.now 0 }
    requires last { HasNth 0 (parts_of kind) path.now 1 }
    ensures { (first last : Defined) (others : List Defined) → Stands kind path.now (first ∷ last ∷ others) → DecodesTwo first last result }
{
    let first = parameter_of(kind, path, 0);
    let last = parameter_of(kind, path, 1);
    match text_of(alloc, first) {
        Ok(first_text) => match text_of(alloc, last) {
            Ok(last_text) => Ok((first_text, last_text)),
            Err(why) => Err(why),
        },
        Err(why) => Err(why),
    }
}

/// The texts of the three parameters of a route.
fn three_texts(alloc: Global, kind: Kind, path: &[u8]) -> Result<(Text, Text, Text), RouteErr>
    requires first { HasNth 0 (parts_of kind) path.now 0 }
    requires next { HasNth 0 (parts_of kind) path.now 1 }
    requires last { HasNth 0 (parts_of kind) path.now 2 }
    ensures { (first next last : Defined) → Stands kind path.now (first ∷ next ∷ last ∷ []) → DecodesThree first next last result }
{
    match two_texts(alloc, kind, path) {
        Ok((first, next)) => match text_of(alloc, parameter_of(kind, path, 2)) {
            Ok(last) => Ok((first, next, last)),
            Err(why) => Err(why),
        },
        Err(why) => Err(why),
    }
}

/// The application of an invocation, and the rest of the target from the method's name on.
fn invocation(
    alloc: Global,
    kind: Kind,
    target: &[u8],
    path: &[u8],
) -> Result<(Text, Blob), RouteErr>
    requires first { HasNth 0 (parts_of kind) path.now 0 }
    requires last { HasNth 0 (parts_of kind) path.now 1 }
    requires within { length path.now ≤ length target.now }
    ensures { (first last : Defined) → Stands kind path.now (first ∷ last ∷ []) → DecodesInvoked target.now first last result }
{
    let first = parameter_of(kind, path, 0);
    let last = parameter_of(kind, path, 1);
    match text_of(alloc, first) {
        Ok(app) => match Blob::from_bytes(alloc, &target[last.at..]) {
            Ok(rest) => Ok((app, rest)),
            Err(_) => Err(RouteErr::NoMemory),
        },
        Err(why) => Err(why),
    }
}

/// The route of a kind, with the parameters that its path has.
pub(crate) fn route_of(
    alloc: Global,
    kind: Kind,
    target: &[u8],
    path: &[u8],
) -> Result<Route, RouteErr>
    requires stands { (parameters : List Defined) × Stands kind path.now parameters }
    requires within { length path.now ≤ length target.now }
    ensures { (parameters : List Defined) → Stands kind path.now parameters → DecodesRoute target.now kind parameters result }
{
    match kind {
        Kind::Save => Ok(Route::Save {
            store: one_text(alloc, kind, path)?,
        }),
        Kind::Get => {
            let (store, key) = two_texts(alloc, kind, path)?;
            Ok(Route::Get { store, key })
        }
        Kind::Delete => {
            let (store, key) = two_texts(alloc, kind, path)?;
            Ok(Route::Delete { store, key })
        }
        Kind::Bulk => Ok(Route::Bulk {
            store: one_text(alloc, kind, path)?,
        }),
        Kind::Transact => Ok(Route::Transact {
            store: one_text(alloc, kind, path)?,
        }),
        Kind::Invoke => {
            let (app, rest) = invocation(alloc, kind, target, path)?;
            Ok(Route::Invoke { app, rest })
        }
        Kind::Publish => {
            let (pubsub, topic) = two_texts(alloc, kind, path)?;
            Ok(Route::Publish { pubsub, topic })
        }
        Kind::Binding => Ok(Route::Binding {
            name: one_text(alloc, kind, path)?,
        }),
        Kind::ActorCall => {
            let (actor, id) = two_texts(alloc, kind, path)?;
            Ok(Route::ActorCall { kind: actor, id })
        }
        Kind::ActorGet => {
            let (actor, id, key) = three_texts(alloc, kind, path)?;
            Ok(Route::ActorGet {
                kind: actor,
                id,
                key,
            })
        }
        Kind::ActorChange => {
            let (actor, id) = two_texts(alloc, kind, path)?;
            Ok(Route::ActorChange { kind: actor, id })
        }
        Kind::Health => Ok(Route::Health),
        Kind::Metadata => Ok(Route::Metadata),
        Kind::SetMetadata => Ok(Route::SetMetadata {
            name: one_text(alloc, kind, path)?,
        }),
        Kind::Shutdown => Ok(Route::Shutdown),
    }
}
