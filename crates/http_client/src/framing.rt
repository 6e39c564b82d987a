//! What the fields of a reply say of its content, and which of them are the reply's own.
ghost use Rattle.std.specs.Prelude.{◌≡◌, ◌≤◌, codes, count_by, length, IfOk, IfSome};
ghost use Rattle.side_base.specs.Field.{is_named, has_item};
ghost use Rattle.http_client.specs.Replies.{listed, is_of_connection, is_of_framing, is_of_hop, own_fields, may_persist, is_to_end, IsLength, IsFraming, IsFramedByLength, IsFramedByCoding};

use side_base::{
    Blob, Fields, NoMemory, Sequence, first_value, has_item, is_same_word, number_of, split_digits,
};
use std::alloc::Global;

/// The most digits of a length.
const LENGTH_DIGITS: usize = 18;

const CONTENT_LENGTH: &[u8] = b"content-length";

const TRANSFER_ENCODING: &[u8] = b"transfer-encoding";

const CONNECTION: &[u8] = b"connection";

const CHUNKED: &[u8] = b"chunked";

/// How the content of a reply is framed.
#[derive(Clone, Copy, Debug, PartialEq, Eq)]
pub(crate) enum Framing {
    /// There is none.
    Nothing,
    /// So many bytes.
    Length { len: u64 },
    /// In chunks.
    Chunks,
    /// All bytes to the end of the input.
    ToEnd,
}

/// How the content of a reply with this status and these fields is framed; `to_head`: it replies to HEAD.
///
/// `None` where the fields contradict each other, or name another coding than `chunked`.
#[tactic(auto, using(crate::proofs::FramingLemmas::no_value))]
pub(crate) fn framing_of(to_head: bool, status: u16, minor: u8, fields: &Fields) -> Option<Framing>
    ensures { IfSome result (IsFraming to_head status minor fields.now) }
{
    if to_head || status == 204 || status == 304 {
        return Some(Framing::Nothing);
    }
    let codings = count_named(TRANSFER_ENCODING, fields);
    let lengths = count_named(CONTENT_LENGTH, fields);
    if codings == 0 && lengths == 0 {
        Some(Framing::ToEnd)
    } else if codings == 0 && lengths == 1 {
        framing_by_length(fields)
    } else if codings == 1 && lengths == 0 {
        framing_by_coding(minor, fields)
    } else {
        None
    }
}

/// The framing by the one length.
#[tactic(auto, using(crate::proofs::FramingLemmas::one_value))]
fn framing_by_length(fields: &Fields) -> Option<Framing>
    requires { count_by (is_named (codes "content-length")) fields.now ≡ 1 }
    ensures { IfSome result (IsFramedByLength fields.now) }
{
    let len = length_of(first_value(fields, CONTENT_LENGTH)?)?;
    Some(Framing::Length { len })
}

/// The framing by the one coding.
#[tactic(auto, using(crate::proofs::FramingLemmas::one_value))]
fn framing_by_coding(minor: u8, fields: &Fields) -> Option<Framing>
    requires { count_by (is_named (codes "transfer-encoding")) fields.now ≡ 1 }
    ensures { IfSome result (IsFramedByCoding minor fields.now) }
{
    let coding = first_value(fields, TRANSFER_ENCODING)?;
    if minor == 1 && is_same_word(coding, CHUNKED) {
        Some(Framing::Chunks)
    } else {
        None
    }
}

fn count_named(name: &[u8], fields: &Fields) -> usize
    ensures count { result ≡ count_by (is_named name.now) fields.now }
    ensures few { result ≤ length fields.now }
{
    let mut count = 0;
    for i in 0..fields.len() {
        if is_same_word(fields.at(i).name.bytes(), name) {
            count += 1;
        }
    }
    count
}

/// The number that 1 to 18 decimal digits write.
#[tactic(auto, using(crate::proofs::FramingLemmas::length_is))]
fn length_of(value: &[u8]) -> Option<u64>
    ensures { IfSome result (IsLength value.now) }
{
    let (digits, rest) = split_digits(value);
    if rest.is_empty() && !digits.is_empty() && digits.len() <= LENGTH_DIGITS {
        Some(number_of(digits))
    } else {
        None
    }
}

/// The fields that `Connection` lists, as one list value.
#[tactic(auto, unfolding(crate::specs::Replies::listed))]
pub(crate) fn listed(alloc: Global, fields: &Fields) -> Result<Blob, NoMemory>
    ensures { IfOk result (λ value. value ≡ listed fields.now) }
{
    let mut value = Blob::new(alloc);
    for i in 0..fields.len() {
        let field = fields.at(i);
        if is_same_word(field.name.bytes(), CONNECTION) {
            value.push(field.value.bytes())?;
            value.push(b",")?;
        }
    }
    Ok(value)
}

/// Whether a field of this name speaks of the connection alone, where `Connection` lists those of `names`.
#[tactic(auto, unfolding(crate::specs::Replies::is_of_hop))]
fn is_of_hop(names: &[u8], name: &[u8]) -> bool
    ensures { result ≡ is_of_hop names.now name.now }
{
    is_of_connection(name) || is_of_framing(name) || has_item(names, name)
}

/// Whether the field says what becomes of the connection.
#[tactic(auto, unfolding(crate::specs::Replies::is_of_connection))]
pub(crate) fn is_of_connection(name: &[u8]) -> bool
    ensures { result ≡ is_of_connection name.now }
{
    is_same_word(name, CONNECTION)
        || is_same_word(name, b"keep-alive")
        || is_same_word(name, b"proxy-connection")
        || is_same_word(name, b"upgrade")
}

/// Whether the field says how the content is framed.
#[tactic(auto, unfolding(crate::specs::Replies::is_of_framing))]
pub(crate) fn is_of_framing(name: &[u8]) -> bool
    ensures { result ≡ is_of_framing name.now }
{
    is_same_word(name, b"te")
        || is_same_word(name, b"trailer")
        || is_same_word(name, TRANSFER_ENCODING)
        || is_same_word(name, CONTENT_LENGTH)
}

/// The fields that don't speak of a connection that lists these names, in order.
pub(crate) fn own_fields(alloc: Global, names: &[u8], fields: Fields) -> Result<Fields, NoMemory>
    ensures { IfOk result (λ own. own ≡ own_fields names.now fields) }
{
    let mut left = fields;
    let mut own = Sequence::new(alloc);
    while let Some(field) = left.take_first() {
        if !is_of_hop(names, field.name.bytes()) {
            own.push(field)?;
        }
    }
    Ok(own)
}

/// Whether the connection closes where `Connection` lists those of `names`.
pub(crate) fn lists_close(names: &[u8]) -> bool
    ensures { result ≡ has_item names.now (codes "close") }
{
    has_item(names, b"close")
}

/// Whether the connection may be used again behind a reply of this version, where a head says that it closes or not, and these bytes came
/// behind it (RFC 9112, sections 9.3 and 9.6).
#[tactic(auto, unfolding(crate::specs::Replies::may_persist))]
pub(crate) fn may_persist(minor: u8, closes: bool, framing: Framing, came: &[u8]) -> bool
    ensures { result ≡ may_persist minor closes framing came.now }
{
    minor == 1 && !closes && !is_to_end(framing) && came.is_empty()
}

/// Whether content that is framed so ends with the input.
fn is_to_end(framing: Framing) -> bool
    ensures { result ≡ is_to_end framing }
{
    match framing {
        Framing::ToEnd => true,
        Framing::Nothing | Framing::Length { len: _ } | Framing::Chunks => false,
    }
}
