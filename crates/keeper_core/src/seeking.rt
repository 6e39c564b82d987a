ghost use Rattle.std.specs.Prelude.{◌≡◌, ◌<◌, ℕ, List, Some, length, option_map, slice_get, IsTrue};
ghost use Rattle.std.specs.FinMap.{is_sorted};
ghost use Rattle.std.specs.declared.alloc.Global.{Global};
ghost use Rattle.std.specs.declared.vec.Vec.{Vec};
ghost use Rattle.keeper_core.specs.Rows.{byte_order, lapsed_in};
ghost use Rattle.keeper_core.specs.Shapes.{Shape, slots, key_at, entries_at, Holds, IsTree, Finds, FindsLapsed};

use crate::links::{Link, last_moment};
use std::cmp::Ordering;

/// The node of the lowest key whose row is not live at `moment`.
pub(crate) fn first_lapsed(links: &[Link], at: usize, moment: u64) -> Option<usize>
    requires tree { IsTree links.now at }
    ensures lapsed { (shape : Shape) (keys : List (Vec ℕ Global)) → Holds links.now shape at → option_map (key_at keys) result ≡ slice_get (lapsed_in moment (entries_at keys links.now (slots shape))) 0 }
    ensures within { (slot : ℕ) → result ≡ Some slot → slot < length links.now }
{
    let Some(link) = links.get(at) else {
        return None;
    };
    if moment <= link.least {
        return None;
    }
    if let Some(slot) = first_lapsed(links, link.left, moment) {
        return Some(slot);
    }
    if last_moment(link.until) < moment {
        return Some(at);
    }
    first_lapsed(links, link.right, moment)
}

/// The node of the lowest key behind `after` whose row is not live at `moment`.
pub(crate) fn next_lapsed(
    links: &[Link],
    keys: &[Vec<u8>],
    at: usize,
    after: &[u8],
    moment: u64,
) -> Option<usize>
    requires tree { IsTree links.now at }
    requires keys { length keys.now ≡ length links.now }
    ensures lapsed { (shape : Shape) → Holds links.now shape at → IsTrue (is_sorted byte_order (entries_at keys.now links.now (slots shape))) → FindsLapsed keys.now links.now shape after.now moment result }
    ensures within { (slot : ℕ) → result ≡ Some slot → slot < length links.now }
{
    let Some(link) = links.get(at) else {
        return None;
    };
    if moment <= link.least {
        return None;
    }
    let Ordering::Less = after.cmp(keys[at].as_slice()) else {
        return next_lapsed(links, keys, link.right, after, moment);
    };
    if let Some(slot) = next_lapsed(links, keys, link.left, after, moment) {
        return Some(slot);
    }
    if last_moment(link.until) < moment {
        return Some(at);
    }
    first_lapsed(links, link.right, moment)
}

/// The node of a key.
pub(crate) fn slot_of(links: &[Link], keys: &[Vec<u8>], at: usize, key: &[u8]) -> Option<usize>
    requires tree { IsTree links.now at }
    requires keys { length keys.now ≡ length links.now }
    ensures { (shape : Shape) → Holds links.now shape at → IsTrue (is_sorted byte_order (entries_at keys.now links.now (slots shape))) → Finds keys.now links.now (slots shape) key.now result }
{
    let Some(link) = links.get(at) else {
        return None;
    };
    match key.cmp(keys[at].as_slice()) {
        Ordering::Less => slot_of(links, keys, link.left, key),
        Ordering::Greater => slot_of(links, keys, link.right, key),
        Ordering::Equal => Some(at),
    }
}
