ghost use Rattle.std.specs.Prelude.{◌≡◌, ◌+◌, ◌<◌, ◌^◌, [], true, false, not, ◌&&◌, ◌||◌, codes, if◌then◌else◌, length};
ghost use Rattle.std.specs.List.{list_all};
ghost use Rattle.std.specs.Char.{is_ascii_digit};
ghost use Rattle.std.specs.Str.Parse.{digits_value};
ghost use Rattle.http_frames.specs.HeadRules.{is_named, is_length, fields_refusal};
ghost use Rattle.side_base.specs.Field.{is_same_word};
ghost use Rattle.http_frames.specs.Said.{IsSaid, IsMore, broken, asks};

use crate::FrameErr;
use http_chunks::BODY_LIMIT;
use side_base::{Field, Fields, is_same_word};

/// The most fields of a head.
const FIELD_LIMIT: usize = 64;
/// The most digits of a length.
const LENGTH_DIGITS: usize = 18;

const HOST: &[u8] = b"host";

const CONTENT_LENGTH: &[u8] = b"content-length";

const TRANSFER_ENCODING: &[u8] = b"transfer-encoding";

const CONTENT_ENCODING: &[u8] = b"content-encoding";

const EXPECT: &[u8] = b"expect";

const CHUNKED: &[u8] = b"chunked";

const IDENTITY: &[u8] = b"identity";

const CONTINUE: &[u8] = b"100-continue";

/// What the fields of a head say of its host and its content.
#[derive(Clone, Copy, Debug)]
pub(crate) struct Said {
    /// How many fields are called `Host`.
    pub(crate) hosts: usize,
    /// How many are called `Content-Length`.
    pub(crate) lengths: usize,
    /// How many are called `Transfer-Encoding`.
    pub(crate) codings: usize,
    /// Whether a length is other than 1 to 18 decimal digits.
    pub(crate) other_length: bool,
    /// Whether a transfer coding is other than `chunked`.
    pub(crate) other_coding: bool,
    /// Whether a content coding is other than `identity`.
    pub(crate) encoded: bool,
    /// Whether `100 Continue` is expected.
    pub(crate) expects: bool,
    /// The number in the first `Content-Length`, where each is a length; 0 where there is none.
    pub(crate) length: u64,
}

/// What no field says.
fn nothing() -> Said
    ensures { IsSaid [] result }
{
    Said {
        hosts: 0,
        lengths: 0,
        codings: 0,
        other_length: false,
        other_coding: false,
        encoded: false,
        expects: false,
        length: 0,
    }
}

/// What fields say, in one pass over them, from the last one to the first.
pub(crate) fn said_by(fields: &Fields) -> Said
    ensures { IsSaid fields.now result }
{
    let mut said = nothing();
    for i in (0..fields.len()).rev() {
        said = with_field(fields.at(i), said);
    }
    said
}

/// What a field says and those behind it, of which this was said.
fn with_field(field: &Field, said: Said) -> Said
    requires hosts { said.hosts + 1 < 2 ^ 64 }
    requires lengths { said.lengths + 1 < 2 ^ 64 }
    requires codings { said.codings + 1 < 2 ^ 64 }
    ensures { IsMore field.now said result }
{
    Said {
        hosts: counted(is_named(HOST, field), said.hosts),
        lengths: counted(is_named(CONTENT_LENGTH, field), said.lengths),
        codings: counted(is_named(TRANSFER_ENCODING, field), said.codings),
        other_length: or_before(is_other_length(field), said.other_length),
        other_coding: or_before(is_other_coding(field), said.other_coding),
        encoded: or_before(is_encoding(field), said.encoded),
        expects: or_before(is_expecting(field), said.expects),
        length: length_or(
            is_named(CONTENT_LENGTH, field),
            field.value.bytes(),
            said.length,
        ),
    }
}

fn is_named(name: &[u8], field: &Field) -> bool
    ensures { result ≡ is_named name.now field.now }
{
    is_same_word(field.name.bytes(), name)
}

/// Whether the field is a length other than 1 to 18 decimal digits.
fn is_other_length(field: &Field) -> bool
    ensures { result ≡ (is_named (codes "content-length") field.now && not (is_length field.now.value)) }
{
    is_named(CONTENT_LENGTH, field) && !is_digits(field.value.bytes())
}

/// Whether the field is a transfer coding other than `chunked`.
fn is_other_coding(field: &Field) -> bool
    ensures { result ≡ (is_named (codes "transfer-encoding") field.now && not (is_same_word field.now.value (codes "chunked"))) }
{
    is_named(TRANSFER_ENCODING, field) && !is_same_word(field.value.bytes(), CHUNKED)
}

/// Whether the field is a content coding other than `identity`.
fn is_encoding(field: &Field) -> bool
    ensures { result ≡ (is_named (codes "content-encoding") field.now && not (is_same_word field.now.value (codes "identity"))) }
{
    is_named(CONTENT_ENCODING, field) && !is_same_word(field.value.bytes(), IDENTITY)
}

/// Whether the field asks for `100 Continue`.
fn is_expecting(field: &Field) -> bool
    ensures { result ≡ (is_named (codes "expect") field.now && is_same_word field.now.value (codes "100-continue")) }
{
    is_named(EXPECT, field) && is_same_word(field.value.bytes(), CONTINUE)
}

/// Whether a field is so, or one behind it.
fn or_before(is: bool, before: bool) -> bool
    ensures { result ≡ (is || before) }
{
    is || before
}

/// One more, where a field counts.
fn counted(counts: bool, count: usize) -> usize
    requires { count + 1 < 2 ^ 64 }
    ensures { result ≡ (if counts then count + 1 else count) }
{
    if counts { count + 1 } else { count }
}

/// The number that a field tells, where its value is a length; else the one that those behind it tell.
fn length_or(named: bool, value: &[u8], length: u64) -> u64
    ensures other { named ≡ false → result ≡ length }
    ensures number { named ≡ true → is_length value.now ≡ true → result ≡ digits_value 10 value.now }
{
    if named && is_digits(value) {
        number(value)
    } else {
        length
    }
}

/// The first rule that the fields of a whole head break, of which this was said.
pub(crate) fn fields_refusal(minor: u8, fields: &Fields, said: &Said) -> Option<FrameErr>
    requires { IsSaid fields.now said.now }
    ensures { result ≡ fields_refusal minor fields.now }
{
    broken(minor, fields.len(), said)
}

/// The first rule that so many fields break.
#[tactic(auto, unfolding(crate::specs::Said::broken))]
fn broken(minor: u8, count: usize, said: &Said) -> Option<FrameErr>
    ensures { result ≡ broken minor count said.now }
{
    if count > FIELD_LIMIT {
        Some(FrameErr::TooManyHeaders)
    } else if minor == 1 && said.hosts != 1 {
        Some(FrameErr::BadHost)
    } else if said.lengths > 0 && said.codings > 0 {
        Some(FrameErr::BothLengths)
    } else if said.codings > 0 && (minor == 0 || said.codings != 1 || said.other_coding) {
        Some(FrameErr::TransferCoding)
    } else if said.lengths > 1 || said.other_length {
        Some(FrameErr::BadLength)
    } else if said.encoded {
        Some(FrameErr::Coding)
    } else if said.length > BODY_LIMIT {
        Some(FrameErr::TooLong)
    } else {
        None
    }
}

/// Whether a request whose fields say this asks to be told that its content is wanted.
#[tactic(auto, unfolding(crate::specs::Said::asks))]
pub(crate) fn asks_to_continue(minor: u8, said: &Said) -> bool
    ensures { result ≡ asks minor said.now }
{
    minor == 1 && said.expects && (said.codings > 0 || said.length > 0)
}

/// Whether the value is 1 to 18 decimal digits.
#[tactic(auto, unfolding(crate::specs::HeadRules::is_length))]
fn is_digits(value: &[u8]) -> bool
    ensures { result ≡ is_length value.now }
{
    !value.is_empty() && value.len() <= LENGTH_DIGITS && are_digits(value)
}

fn are_digits(value: &[u8]) -> bool
    ensures { result ≡ list_all is_ascii_digit value.now }
{
    value.iter().all(|byte| byte.is_ascii_digit())
}

/// The number that 1 to 18 decimal digits write.
fn number(digits: &[u8]) -> u64
    requires { is_length digits.now ≡ true }
    ensures { result ≡ digits_value 10 digits.now }
{
    let mut number: u64 = 0;
    for digit in digits {
        number = number * 10 + u64::from(*digit - b'0');
    }
    number
}
