ghost use Rattle.std.specs.Prelude.{◌≡◌, ◌<◌};
ghost use Rattle.keeper_core.specs.Tree.{last_moment};
ghost use Rattle.keeper_core.specs.Fields.{Rewritten, with_left, with_right, with_parent, with_until, with_least, with_marks};
ghost use Rattle.keeper_core.specs.Shapes.{Shape, left_at, right_at, parent_at, until_at, least_at, height_at, least_by, Built, WithSides};
ghost use Rattle.keeper_core.specs.Shapes.Shape.{Fork};

/// What stands for no node.
pub(crate) const NONE: usize = usize::MAX;

/// A node of a search tree whose nodes stand in one list: the places of its neighbours, the end of its row, and what is true of the
/// tree below it.
#[derive(Clone, Copy)]
pub(crate) struct Link {
    pub(crate) left: usize,
    pub(crate) right: usize,
    pub(crate) parent: usize,
    /// The moment from which on the row is no longer live, in milliseconds since 1970; 0 is never.
    pub(crate) until: u64,
    /// The last moment at which each row of this tree is live.
    pub(crate) least: u64,
    /// How many nodes the longest way down has.
    pub(crate) height: usize,
}

pub(crate) fn left_at(links: &[Link], at: usize) -> usize
    ensures { result ≡ left_at links.now at }
{
    match links.get(at) {
        Some(link) => link.left,
        None => NONE,
    }
}

pub(crate) fn right_at(links: &[Link], at: usize) -> usize
    ensures { result ≡ right_at links.now at }
{
    match links.get(at) {
        Some(link) => link.right,
        None => NONE,
    }
}

pub(crate) fn until_at(links: &[Link], at: usize) -> u64
    ensures { result ≡ until_at links.now at }
{
    match links.get(at) {
        Some(link) => link.until,
        None => 0,
    }
}

/// The last moment at which each row of a tree is live.
pub(crate) fn least_at(links: &[Link], at: usize) -> u64
    ensures { result ≡ least_at links.now at }
{
    match links.get(at) {
        Some(link) => link.least,
        None => u64::MAX,
    }
}

pub(crate) fn height_at(links: &[Link], at: usize) -> usize
    ensures { result ≡ height_at links.now at }
{
    match links.get(at) {
        Some(link) => link.height,
        None => 0,
    }
}

pub(crate) fn parent_at(links: &[Link], at: usize) -> usize
    ensures { result ≡ parent_at links.now at }
{
    match links.get(at) {
        Some(link) => link.parent,
        None => NONE,
    }
}

/// The last moment at which each row is live of the tree below a node, by its children.
pub(crate) fn least_by(links: &[Link], at: usize) -> u64
    ensures { result ≡ least_by links.now at }
{
    last_moment(until_at(links, at))
        .min(least_at(links, left_at(links, at)))
        .min(least_at(links, right_at(links, at)))
}

/// Marks a node by its children, and tells them that it is their parent.
pub(crate) fn mark(links: &mut [Link], at: usize)
    ensures { (before behind : Shape) → WithSides links.old before at behind (Built links.old links.new (Fork before at behind) at) }
{
    let left = left_at(links, at);
    let right = right_at(links, at);
    let least = least_by(links, at);
    let height = height_at(links, left)
        .max(height_at(links, right))
        .saturating_add(1);
    set_marks(links, at, least, height);
    set_parent(links, left, at);
    set_parent(links, right, at);
}

/// Gives a node what is true of the tree below it, where there is one.
fn set_marks(links: &mut [Link], at: usize, least: u64, height: usize)
    ensures { Rewritten (with_marks least height) links.old links.new at }
{
    if at < links.len() {
        links[at].least = least;
        links[at].height = height;
    }
}

/// Gives the row of a node another end, where there is one.
pub(crate) fn set_end(links: &mut [Link], at: usize, until: u64)
    ensures { Rewritten (with_until until) links.old links.new at }
{
    if at < links.len() {
        links[at].until = until;
    }
}

/// Gives a node another least moment, where there is one.
pub(crate) fn set_least(links: &mut [Link], at: usize, least: u64)
    ensures { Rewritten (with_least least) links.old links.new at }
{
    if at < links.len() {
        links[at].least = least;
    }
}

/// Gives a node a parent, where there is one.
pub(crate) fn set_parent(links: &mut [Link], at: usize, parent: usize)
    ensures { Rewritten (with_parent parent) links.old links.new at }
{
    if at < links.len() {
        links[at].parent = parent;
    }
}

/// Gives a node a left child, where there is one.
pub(crate) fn set_left(links: &mut [Link], at: usize, left: usize)
    ensures { Rewritten (with_left left) links.old links.new at }
{
    if at < links.len() {
        links[at].left = left;
    }
}

/// Gives a node a right child, where there is one.
pub(crate) fn set_right(links: &mut [Link], at: usize, right: usize)
    ensures { Rewritten (with_right right) links.old links.new at }
{
    if at < links.len() {
        links[at].right = right;
    }
}

/// The last moment at which a row with this `until` is live.
pub(crate) fn last_moment(until: u64) -> u64
    ensures { result ≡ last_moment until }
{
    match until {
        0 => u64::MAX,
        _ => until - 1,
    }
}
