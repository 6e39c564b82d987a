//! Names with values, in byte order of the names.
ghost use Rattle.std.specs.Prelude.{◌≡◌, ◌≤◌, ◌<◌, ◌^◌, ◌&&◌, nat_le, length, OnOk, OnErr, IfOk};
ghost use Rattle.std.specs.Bool.{OnTrue};
ghost use Rattle.std.specs.Ordering.{nat_cmp};
ghost use Rattle.std.specs.Cmp.Lexicographic.{slice_cmp};
ghost use Rattle.meta_api.specs.declared.command.Pair.{Pair as PairRecord};
ghost use Rattle.meta_api.specs.Book.{bytes_of, old_len, pair_len, put, put_at};

use crate::{Pair, Pairs};
use side_base::{NoMemory, Sequence, Text};
use std::alloc::Global;
use std::cmp::Ordering;

/// The most names of a book.
pub const NAMES_LIMIT: u128 = 1_024;

/// The most bytes of all names and values of a book.
pub const BYTES_LIMIT: u128 = 1_048_576;

/// Where a name stands among others, or would stand.
#[derive(Clone, Copy, Debug)]
pub(crate) struct Place {
    pub at: usize,
    /// Whether it stands there.
    pub taken: bool,
}

/// Which of two names comes first, in byte order.
fn order(one: &[u8], other: &[u8]) -> Ordering
    ensures { result ≡ slice_cmp nat_cmp one.now other.now }
{
    one.cmp(other)
}

/// The place of a name.
pub(crate) fn place_of(pairs: &[Pair], name: &[u8]) -> Place
    ensures place { (pair : PairRecord) → pair.name ≡ name.now → put pair pairs.now ≡ put_at result pair pairs.now }
    ensures within { result.at ≤ length pairs.now }
    ensures taken { OnTrue result.taken (result.at < length pairs.now) }
{
    for (at, pair) in pairs.iter().enumerate() {
        match order(name, pair.name.bytes()) {
            Ordering::Less => return Place { at, taken: false },
            Ordering::Equal => return Place { at, taken: true },
            Ordering::Greater => {}
        }
    }
    Place {
        at: pairs.len(),
        taken: false,
    }
}

/// How many bytes stand at a place that is taken, and 0 at another.
pub(crate) fn old_len(pairs: &[Pair], place: Place) -> u128
    requires { OnTrue place.taken (place.at < length pairs.now) }
    ensures { result ≡ old_len place pairs.now }
{
    if place.taken {
        pair_len(&pairs[place.at])
    } else {
        0
    }
}

/// How many bytes a name and its value have.
pub(crate) fn pair_len(pair: &Pair) -> u128
    ensures len { result ≡ pair_len pair.now }
    ensures limit { result < 2 ^ 65 }
{
    pair.name.len() as u128 + pair.value.len() as u128
}

/// How many names a book has, and how many bytes of names and values.
#[derive(Clone, Copy, Debug)]
pub(crate) struct Size {
    pub names: u128,
    pub bytes: u128,
}

/// The size of a book of so many bytes, with the pair at its place.
pub(crate) fn size_with(pairs: &[Pair], bytes: u64, place: Place, pair: &Pair) -> Size
    requires bytes { bytes ≡ bytes_of pairs.now }
    requires within { place.at ≤ length pairs.now }
    requires taken { OnTrue place.taken (place.at < length pairs.now) }
    ensures names { result.names ≡ length (put_at place pair.now pairs.now) }
    ensures bytes { result.bytes ≡ bytes_of (put_at place pair.now pairs.now) }
{
    let others = pairs.len() as u128;
    let all = u128::from(bytes) + pair_len(pair);
    let bytes = all - old_len(pairs, place);
    if place.taken {
        Size {
            names: others,
            bytes,
        }
    } else {
        Size {
            names: others + 1,
            bytes,
        }
    }
}

/// Whether a book may be of this size.
pub(crate) fn is_small(size: Size) -> bool
    ensures { result ≡ (nat_le size.names 1024 && nat_le size.bytes 1048576) }
{
    size.names <= NAMES_LIMIT && size.bytes <= BYTES_LIMIT
}

/// Puts a pair to its place.
pub(crate) fn store(pairs: &mut Vec<Pair>, place: Place, pair: Pair) -> Result<(), NoMemory>
    requires within { place.at ≤ length pairs.old.items }
    requires taken { OnTrue place.taken (place.at < length pairs.old.items) }
    ensures ok { OnOk result (pairs.new.items ≡ put_at place pair pairs.old.items) }
    ensures err { OnErr result (pairs.new.items ≡ pairs.old.items) }
{
    if place.taken {
        pairs[place.at] = pair;
        return Ok(());
    }
    match pairs.insert(place.at, pair) {
        Ok(()) => Ok(()),
        Err(_) => Err(NoMemory),
    }
}

/// A copy of all pairs.
pub(crate) fn copied(alloc: Global, pairs: &[Pair]) -> Result<Pairs, NoMemory>
    ensures { IfOk result (λ copy. copy ≡ pairs.now) }
{
    let mut copy = Sequence::new(alloc);
    for pair in pairs {
        copy.push(copied_pair(&pair.name, &pair.value)?)?;
    }
    Ok(copy)
}

/// A pair of copies.
pub(crate) fn copied_pair(name: &Text, value: &Text) -> Result<Pair, NoMemory>
    ensures { IfOk result (λ pair. pair ≡ record { name = name.now; value = value.now }) }
{
    Ok(Pair {
        name: name.copy()?,
        value: value.copy()?,
    })
}
