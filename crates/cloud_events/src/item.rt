//! Members of an event.
ghost use Rattle.std.specs.Prelude.{◌≡◌, ◌≤◌, ◌^◌, ◌<◌, ◌-◌, length, take, drop, option_copied, is_some, bytes_eq};
ghost use Rattle.cloud_events.specs.Items.{is_int32, is_whole, item_in, part};

use side_base::{Text, number_of, split_digits};

/// A member of an event: its name, where its value stands in the body that was sent (0 twice for one that stands in none), and the
/// value.
#[derive(Debug, Drop)]
pub(crate) struct Item {
    pub name: Text,
    pub start: usize,
    pub end: usize,
    pub value: Value,
}

/// The value of a member.
#[derive(Debug, Drop)]
pub(crate) enum Value {
    /// A text, which is spelled anew.
    Text(Text),
    /// A truth value, or a whole number of 32 bits with its sign, as it stands in the body.
    Simple,
    /// Any other value, as it stands in the body.
    Other,
    /// The body, which is UTF-8, as a text.
    Body,
    /// The body in base64.
    Encoded,
}

/// Whether two names are one.
pub(crate) fn is_same(one: &[u8], other: &[u8]) -> bool
    ensures { result ≡ bytes_eq one.now other.now }
{
    one == other
}

/// The first member of this name; `None` exactly where there is none.
#[tactic(auto, unfolding(crate::specs::Items::item_in))]
pub(crate) fn find<'a>(items: &'a [Item], name: &[u8]) -> Option<&'a Item>
    ensures { option_copied result ≡ item_in name.now items.now }
{
    for i in 0..items.len() {
        let item = &items[i];
        if is_same(item.name.bytes(), name) {
            return Some(item);
        }
    }
    None
}

/// Whether a member has this name.
pub(crate) fn is_there(items: &[Item], name: &[u8]) -> bool
    ensures { result ≡ is_some (item_in name.now items.now) }
{
    match find(items, name) {
        Some(_) => true,
        None => false,
    }
}

/// The bytes between two places of a body.
pub(crate) fn part(body: &[u8], start: usize, end: usize) -> &[u8]
    ensures { result.now ≡ part body.now start end }
{
    let rest = &body[start.min(body.len())..];
    let len = end.saturating_sub(start);
    &rest[..len.min(rest.len())]
}

/// Whether a JSON number is a whole number of 32 bits with its sign.
pub(crate) fn is_int32(number: &[u8]) -> bool
    ensures { result ≡ is_int32 number.now }
{
    if let [first, digits @ ..] = number {
        if *first == b'-' {
            return is_whole(digits, 2_147_483_648);
        }
    }
    is_whole(number, 2_147_483_647)
}

// Whether all are digits, which make `most` at most.
fn is_whole(text: &[u8], most: u64) -> bool
    requires { most < 2 ^ 32 }
    ensures { result ≡ is_whole most text.now }
{
    let (digits, rest) = split_digits(text);
    rest.len() == 0 && number_of(digits) <= most
}
