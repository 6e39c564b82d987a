ghost use Rattle.std.specs.Prelude.{◌≡◌, true};
ghost use Rattle.rule_value.specs.Codes.{fits, are_utf8};

use crate::op::Op;

/// A rule that has been read. It owns its texts, which are UTF-8.
#[derive(Drop)]
pub struct Expr {
    pub(crate) ops: Vec<Op>,
    ghost fits: { fits 0 ops.items ≡ true },
    ghost utf8: { are_utf8 ops.items ≡ true },
}

impl Expr {
    /// The rule of these steps, in the order in which they are computed.
    pub fn new(ops: Vec<Op>) -> Expr
        requires fits { fits 0 ops.items ≡ true }
        requires utf8 { are_utf8 ops.items ≡ true }
        ensures { result.ops ≡ ops }
    {
        Expr { ops }
    }
}
