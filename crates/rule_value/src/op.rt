// A rule in the order in which it is computed: operands before what is made of them.
use crate::part::{Call, Relation, Whole};
use side_base::{Blob, Sequence};

/// The names that lead from an event to one of its members.
pub type Path = Sequence<Blob>;

/// One step of the computation.
#[derive(Drop)]
pub enum Op {
    /// A text.
    Text { text: Blob },
    /// A number.
    Number { whole: Whole },
    /// `true` or `false`.
    Flag { on: bool },
    /// `null`
    Null,
    /// The member that a path leads to.
    Member { path: Path },
    /// Whether there is such a member.
    Has { path: Path },
    /// `int` of the last value.
    ToInt,
    /// A call on the last two values.
    Called { call: Call },
    /// `!` of the last value.
    Not,
    /// `&&` of the last two values.
    Both,
    /// `||` of the last two values.
    Either,
    /// A comparison of the last two values.
    Test { relation: Relation },
    /// Begins a list, in which the last value is looked for.
    Begin,
    /// The last value is an item of the list.
    Item,
    /// Ends the list.
    Chosen,
}
