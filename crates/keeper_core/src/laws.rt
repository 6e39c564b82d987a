//! What holds of the rows of every keeper, as functions whose contract is the law.
ghost use Rattle.std.specs.Prelude.{◌≡◌, ℕ, List, length};
ghost use Rattle.std.specs.declared.alloc.Global.{Global};
ghost use Rattle.std.specs.declared.vec.Vec.{Vec};
ghost use Rattle.keeper_core.specs.Shapes.{IsLow};
ghost use Rattle.keeper_core.specs.EndTable.{IsWhole, ends_in, shape_in};
ghost use Rattle.keeper_core.specs.declared.links.Link.{Link};

/// No way down the tree of rows' ends is long: one that is `2 * k` nodes high has `2 ^ k - 1` nodes at least, so its height is twice a logarithm of its nodes at most.
pub fn ways_down_are_short()
    ensures { (keys : List (Vec ℕ Global)) (links : List Link) (root : ℕ) → IsWhole keys links root → IsLow (shape_in (length links) links root) }
{}

/// The tree of rows' ends has a node for each end, and no other: those of rows that have no end any more are gone.
pub fn each_node_has_an_end()
    ensures { (keys : List (Vec ℕ Global)) (links : List Link) (root : ℕ) → IsWhole keys links root → length (ends_in keys links root) ≡ length links }
{}
