ghost use Rattle.std.specs.Prelude.{◌≡◌, ◌++◌, List, ℕ, map, codes, decimal, OnOk, IfOk};
ghost use Rattle.meta_api.specs.Body.{IsPutReply, component_text, dead_text, done, full_text, joined, member_text, names_text, metadata_body, metadata_response, pair_text, put_response, subscription_text};

use crate::{NotesReply, Pair, Pairs};
use api_error::{Code, error_response, json_fields};
use itoa::Buffer;
use json_text::{push_comma, push_string_of};
use side_base::{Blob, NoMemory, Response, Sequence, Text};
use std::alloc::Global;

/// A component, as metadata tells it.
#[derive(Debug, Drop)]
pub struct ComponentNote {
    pub name: Text,
    /// The type as a resource file names it, such as `state.in-memory`.
    pub kind: Text,
    pub version: Text,
}

/// A subscription, as metadata tells it.
#[derive(Debug, Drop)]
pub struct SubscriptionNote {
    pub pubsub: Text,
    pub topic: Text,
    /// The dead-letter topic, where there is one.
    pub dead: Option<Text>,
}

/// Components, in the order in which they were loaded.
pub type ComponentNotes = Sequence<ComponentNote>;

/// Subscriptions, in the order in which they were loaded.
pub type SubscriptionNotes = Sequence<SubscriptionNote>;

/// The sidecar answers: status 204, without content. Takes no memory.
pub fn health(alloc: Global) -> Response
    ensures { result ≡ done }
{
    Response {
        status: 204,
        fields: Sequence::new(alloc),
        body: Blob::new(alloc),
    }
}

/// The response to a value that was to be noted: status 204, or an error where the book would be too large.
pub fn put_response(alloc: Global, reply: &NotesReply) -> Result<Response, NoMemory>
    requires { IsPutReply reply.now }
    ensures { IfOk result (λ response. response ≡ put_response reply.now) }
{
    match reply {
        NotesReply::Noted => Ok(health(alloc)),
        NotesReply::Full { names, bytes } => full_response(alloc, *names, *bytes),
        NotesReply::Listed { .. } | NotesReply::NoMemory => unreachable!(),
    }
}

/// The error of a book that would be too large.
fn full_response(alloc: Global, names: u128, bytes: u128) -> Result<Response, NoMemory>
    ensures { IfOk result (λ response. response ≡ put_response (NotesReply.Full names bytes)) }
{
    let text = full_text(alloc, names, bytes)?;
    error_response(alloc, 500, Code::MetadataFull, text.as_str())
}

/// The message of that error.
fn full_text(alloc: Global, names: u128, bytes: u128) -> Result<Text, NoMemory>
    ensures { IfOk result (λ text. text ≡ full_text names bytes) }
{
    let mut text = Text::new(alloc);
    text.push("full at ")?;
    push_number(&mut text, names)?;
    text.push(" names and ")?;
    push_number(&mut text, bytes)?;
    text.push(" bytes")?;
    Ok(text)
}

/// Appends a number in decimal digits.
fn push_number(text: &mut Text, number: u128) -> Result<(), NoMemory>
    ensures { OnOk result (text.new ≡ text.old ++ decimal number) }
{
    let mut digits = Buffer::new();
    text.push(digits.format(number))
}

/// What is loaded and noted: the app id, the components and subscriptions in order, and the noted pairs in byte order of their
/// names, as a JSON map.
pub fn metadata(
    alloc: Global,
    app: &Text,
    components: &ComponentNotes,
    subscriptions: &SubscriptionNotes,
    pairs: &Pairs,
) -> Result<Response, NoMemory>
    ensures { IfOk result (λ response. response ≡ metadata_response app.now components.now subscriptions.now pairs.now) }
{
    let mut body = Blob::new(alloc);
    body.push(b"{\"id\":")?;
    push_string_of(&mut body, app.as_str())?;
    body.push(b",\"components\":[")?;
    push_all(&mut body, components)?;
    body.push(b"],\"subscriptions\":[")?;
    push_all(&mut body, subscriptions)?;
    body.push(b"],\"extended\":{")?;
    push_all(&mut body, pairs)?;
    body.push(b"}}")?;
    Ok(Response {
        status: 200,
        fields: json_fields(alloc)?,
        body,
    })
}

/// What metadata lists.
trait Listed: Drop {
    /// Its text.
    ghost text: { Self → List ℕ };

    /// Appends its text.
    fn push_to(&self, body: &mut Blob) -> Result<(), NoMemory>
        ensures { OnOk result (body.new ≡ body.old ++ text self.now) };
}

impl Listed for ComponentNote {
    ghost use Rattle.meta_api.specs.Body.{component_text};

    ghost text = { component_text };

    fn push_to(&self, body: &mut Blob) -> Result<(), NoMemory> {
        body.push(b"{\"name\":")?;
        push_string_of(body, self.name.as_str())?;
        body.push(b",\"type\":")?;
        push_string_of(body, self.kind.as_str())?;
        body.push(b",\"version\":")?;
        push_string_of(body, self.version.as_str())?;
        body.push(b"}")
    }
}

impl Listed for SubscriptionNote {
    ghost use Rattle.meta_api.specs.Body.{subscription_text};

    ghost text = { subscription_text };

    fn push_to(&self, body: &mut Blob) -> Result<(), NoMemory> {
        push_names(body, self)?;
        push_dead(body, &self.dead)?;
        body.push(b"}")
    }
}

impl Listed for Pair {
    ghost use Rattle.meta_api.specs.Body.{pair_text};

    ghost text = { pair_text };

    fn push_to(&self, body: &mut Blob) -> Result<(), NoMemory> {
        push_string_of(body, self.name.as_str())?;
        body.push(b":")?;
        push_string_of(body, self.value.as_str())
    }
}

/// Appends the pub/sub component and the topic.
fn push_names(body: &mut Blob, note: &SubscriptionNote) -> Result<(), NoMemory>
    ensures { OnOk result (body.new ≡ body.old ++ names_text note.now) }
{
    push_member(body, b"{\"pubsubname\":", &note.pubsub)?;
    push_member(body, b",\"topic\":", &note.topic)
}

/// Appends a text behind what stands before it.
fn push_member(body: &mut Blob, front: &[u8], text: &Text) -> Result<(), NoMemory>
    ensures { OnOk result (body.new ≡ body.old ++ member_text front.now text.now) }
{
    body.push(front)?;
    push_string_of(body, text.as_str())
}

/// Appends the dead-letter topic, where there is one.
fn push_dead(body: &mut Blob, dead: &Option<Text>) -> Result<(), NoMemory>
    ensures { OnOk result (body.new ≡ body.old ++ dead_text dead.now) }
{
    match dead {
        Some(topic) => {
            body.push(b",\"deadLetterTopic\":")?;
            push_string_of(body, topic.as_str())
        }
        None => Ok(()),
    }
}

/// Appends the texts of a list, with a comma between each two.
fn push_all<L: Listed>(body: &mut Blob, list: &Sequence<L>) -> Result<(), NoMemory>
    ensures { OnOk result (body.new ≡ body.old ++ joined (map L.text list.now)) }
{
    for i in 0..list.len() {
        push_comma(body, i == 0)?;
        list.at(i).push_to(body)?;
    }
    Ok(())
}
