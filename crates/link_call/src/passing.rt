//! Fields that are passed on from one connection to another (RFC 9110, section 7.6.1).
ghost use Rattle.std.specs.Prelude.{◌≡◌, ◌∷◌, ◌++◌, [], IfOk, OnOk};
ghost use Rattle.std.specs.List.{filter, list_any};
ghost use Rattle.side_base.specs.Field.{has_item, is_same_word};
ghost use Rattle.link_call.specs.Passed.{is_kept_back, is_of_connection, is_of_framing, is_of_next, lists_in, passed, passed_on, passes};

use side_base::{Blob, Field, Fields, NoMemory, Response, Sequence, has_item, is_same_word};
use std::alloc::Global;

const CONNECTION: &[u8] = b"Connection";

/// The fields of these that are passed on, in their order, as copies.
pub fn passed_fields(alloc: Global, fields: &Fields) -> Result<Fields, NoMemory>
    ensures { IfOk result (λ own. own ≡ passed fields.now) }
{
    let lists = connection_lists(alloc, fields)?;
    let mut own = Sequence::new(alloc);
    for i in 0..fields.len() {
        push_passed(&mut own, &lists, fields.at(i))?;
    }
    Ok(own)
}

/// The response as it is passed on: its status, its content, and those of its fields that are passed on, in their order. They are moved.
pub fn pass_on(alloc: Global, response: Response) -> Result<Response, NoMemory>
    ensures { IfOk result (λ passed. passed ≡ passed_on response) }
{
    let Response {
        status,
        fields,
        body,
    } = response;
    Ok(Response {
        status,
        fields: moved_fields(alloc, fields)?,
        body,
    })
}

/// The fields of these that are passed on, in their order, moved.
fn moved_fields(alloc: Global, fields: Fields) -> Result<Fields, NoMemory>
    ensures { IfOk result (λ own. own ≡ passed fields) }
{
    let lists = connection_lists(alloc, &fields)?;
    let mut left = fields;
    let mut own = Sequence::new(alloc);
    while let Some(field) = left.take_first() {
        if passes(&lists, &field) {
            own.push(field)?;
        }
    }
    Ok(own)
}

/// Appends a copy of the field, if it is passed on.
fn push_passed(own: &mut Fields, lists: &Sequence<Blob>, field: &Field) -> Result<(), NoMemory>
    ensures { OnOk result (own.new ≡ own.old ++ filter (passes lists.now) (field.now ∷ [])) }
{
    if !passes(lists, field) {
        return Ok(());
    }
    own.push(Field {
        name: field.name.copy()?,
        value: field.value.copy()?,
    })
}

/// The values of all fields `Connection`, in order.
fn connection_lists(alloc: Global, fields: &Fields) -> Result<Sequence<Blob>, NoMemory>
    ensures { IfOk result (λ lists. lists ≡ lists_in fields.now) }
{
    let mut lists = Sequence::new(alloc);
    for i in 0..fields.len() {
        push_list(&mut lists, fields.at(i))?;
    }
    Ok(lists)
}

/// Appends the value of a field `Connection`; nothing of any other.
fn push_list(lists: &mut Sequence<Blob>, field: &Field) -> Result<(), NoMemory>
    ensures { OnOk result (lists.new ≡ lists.old ++ lists_in (field.now ∷ [])) }
{
    if !is_same_word(field.name.bytes(), CONNECTION) {
        return Ok(());
    }
    lists.push(field.value.copy()?)
}

/// Whether the field is passed on, where fields `Connection` have these values.
fn passes(lists: &Sequence<Blob>, field: &Field) -> bool
    ensures { result ≡ passes lists.now field.now }
{
    let name = field.name.bytes();
    !(is_kept_back(name) || is_listed(lists, name))
}

/// Whether one of the values lists the name.
fn is_listed(lists: &Sequence<Blob>, name: &[u8]) -> bool
    ensures { result ≡ list_any (λ value. has_item value name.now) lists.now }
{
    for i in 0..lists.len() {
        if has_item(lists.at(i).bytes(), name) {
            return true;
        }
    }
    false
}

/// Whether a field of this name is of one connection alone.
fn is_kept_back(name: &[u8]) -> bool
    ensures { result ≡ is_kept_back name.now }
{
    is_of_connection(name) || is_of_framing(name) || is_of_next(name)
}

/// Whether the field says what becomes of the connection.
fn is_of_connection(name: &[u8]) -> bool
    ensures { result ≡ is_of_connection name.now }
{
    is_same_word(name, CONNECTION)
        || is_same_word(name, b"Keep-Alive")
        || is_same_word(name, b"Proxy-Connection")
        || is_same_word(name, b"Upgrade")
}

/// Whether the field says how messages are framed on the connection.
fn is_of_framing(name: &[u8]) -> bool
    ensures { result ≡ is_of_framing name.now }
{
    is_same_word(name, b"TE")
        || is_same_word(name, b"Trailer")
        || is_same_word(name, b"Transfer-Encoding")
}

/// Whether the next connection has a field of this name of its own.
fn is_of_next(name: &[u8]) -> bool
    ensures { result ≡ is_of_next name.now }
{
    is_same_word(name, b"Host")
        || is_same_word(name, b"Content-Length")
        || is_same_word(name, b"Expect")
}
