// The values that stand one on the other while a rule is computed.
ghost use Rattle.std.specs.Prelude.{◌≡◌, ◌<◌, ◌≤◌, ◌+◌, List, [], ◌∷◌, length};

use crate::value::Value;

/// How many values stand there at most: four for each open bracket, and four.
pub(crate) const HEIGHT: usize = 132;

/// Values one on the other.
#[derive(Drop)]
pub(crate) struct Stack<'r> {
    values: [Value<'r>; HEIGHT],
    height: usize,
    ghost size: { length values ≡ 132 },
}

impl<'r> Stack<'r> {
    ghost use Rattle.rule_value.specs.Stacks.{stacked};

    /// No values.
    pub(crate) fn new() -> Stack<'r>
        ensures values { stacked result ≡ [] }
        ensures height { result.height ≡ 0 }
    {
        Stack {
            values: [Value::Error; HEIGHT],
            height: 0,
        }
    }

    /// Puts a value on top.
    pub(crate) fn push(&mut self, value: Value<'r>)
        requires { self.old.height < 132 }
        ensures values { stacked self.new ≡ value.entry ∷ stacked self.old }
        ensures height { self.new.height ≡ self.old.height + 1 }
    {
        self.values[self.height] = value;
        self.height += 1;
    }

    /// Takes the value on top.
    pub(crate) fn pop(&mut self) -> Value<'r>
        requires some { 0 < self.old.height }
        requires most { self.old.height ≤ 132 }
        ensures values { stacked self.old ≡ result ∷ stacked self.new }
        ensures height { self.new.height + 1 ≡ self.old.height }
    {
        self.height -= 1;
        self.values[self.height]
    }
}
