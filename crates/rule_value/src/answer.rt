ghost use Rattle.std.specs.Prelude.{◌≡◌, ◌<◌, ◌≤◌, ◌+◌, ◌-◌, true, List, ◌∷◌, length, ℕ};
ghost use Rattle.json_text.specs.declared.doc.Doc.{Doc as JsonDoc};
ghost use Rattle.rule_value.specs.Trees.{Tree, or};
ghost use Rattle.rule_value.specs.Values.{Event, Value as Meant, truth, value};
ghost use Rattle.rule_value.specs.Codes.{IsExpr, has_utf8, taken, left, after_step, on_item, verdict};
ghost use Rattle.rule_value.specs.Stacks.{stacked};
ghost use Rattle.rule_value.specs.Standing.{IsEvent, Is, Are, AreReadable};

use crate::compare::{as_number, called, compared, equal};
use crate::expr::Expr;
use crate::op::Op;
use crate::stack::Stack;
use crate::truth::Truth;
use crate::value::{Value, both, either, flag_of, flag_or_error, member_at, negated, value_at};
use json_text::Doc;

// Takes the two values on top, the lower one first.
fn pop_two<'r>(stack: &mut Stack<'r>) -> (Value<'r>, Value<'r>)
    requires some { 2 ≤ stack.old.height }
    requires most { stack.old.height ≤ 132 }
    ensures values { stacked stack.old ≡ result.1 ∷ result.0 ∷ stacked stack.new }
    ensures height { stack.new.height + 2 ≡ stack.old.height }
{
    let last = stack.pop();
    let first = stack.pop();
    (first, last)
}

// The value on top is one more item of the list in which the value two below it is looked for.
fn item<'r>(doc: &Doc<'_>, stack: &mut Stack<'r>)
    requires readable { AreReadable doc.now (stacked stack.old) }
    requires some { 3 ≤ stack.old.height }
    requires most { stack.old.height ≤ 132 }
    ensures readable { AreReadable doc.now (stacked stack.new) }
    ensures height { stack.new.height + 1 ≡ stack.old.height }
    ensures values { (meant : List Meant) → Are doc.now (stacked stack.old) meant → Are doc.now (stacked stack.new) (on_item meant) }
{
    let last = stack.pop();
    let found = stack.pop();
    let wanted = stack.pop();
    stack.push(wanted);
    stack.push(flag_or_error(either(flag_of(found), equal(doc, wanted, last))));
}

// One step of the computation.
fn step<'r>(doc: &Doc<'_>, op: &'r Op, stack: &mut Stack<'r>)
    requires readable { AreReadable doc.now (stacked stack.old) }
    requires some { taken op.now ≤ stack.old.height }
    requires most { stack.old.height ≤ 132 }
    requires room { stack.old.height - taken op.now + left op.now ≤ 132 }
    requires utf8 { has_utf8 op.now ≡ true }
    ensures readable { AreReadable doc.now (stacked stack.new) }
    ensures height { stack.new.height ≡ stack.old.height - taken op.now + left op.now }
    ensures values { (event : Event) → IsEvent doc.now event → (meant : List Meant) → Are doc.now (stacked stack.old) meant → Are doc.now (stacked stack.new) (after_step event op.now meant) }
{
    match op {
        Op::Text { text } => stack.push(Value::Own { text: text.bytes() }),
        Op::Number { whole } => stack.push(Value::Number { whole: *whole }),
        Op::Flag { on } => stack.push(Value::Flag { on: *on }),
        Op::Null => stack.push(Value::Null),
        Op::Member { path } => stack.push(value_at(doc, member_at(doc, path))),
        Op::Has { path } => stack.push(Value::Flag {
            on: member_at(doc, path).is_some(),
        }),
        Op::ToInt => {
            let value = stack.pop();
            stack.push(as_number(doc, value));
        }
        Op::Called { call } => {
            let (all, part) = pop_two(stack);
            stack.push(flag_or_error(called(doc, *call, all, part)));
        }
        Op::Not => {
            let value = stack.pop();
            stack.push(flag_or_error(negated(flag_of(value))));
        }
        Op::Both => {
            let (a, b) = pop_two(stack);
            stack.push(flag_or_error(both(flag_of(a), flag_of(b))));
        }
        Op::Either => {
            let (a, b) = pop_two(stack);
            stack.push(flag_or_error(either(flag_of(a), flag_of(b))));
        }
        Op::Test { relation } => {
            let (one, other) = pop_two(stack);
            stack.push(flag_or_error(compared(doc, *relation, one, other)));
        }
        Op::Begin => stack.push(Value::Flag { on: false }),
        Op::Item => item(doc, stack),
        Op::Chosen => {
            let (_, found) = pop_two(stack);
            stack.push(found);
        }
    }
}

// What a value answers.
fn truth_of(value: Value<'_>) -> Truth
    ensures { (doc : JsonDoc) (meant : Meant) → Is doc value.entry meant → result ≡ truth meant }
{
    match flag_of(value) {
        Some(true) => Truth::Yes,
        Some(false) => Truth::No,
        None => Truth::Error,
    }
}

/// What the rule answers of an event that was read. It takes no memory.
pub fn matches(expr: &Expr, event: &Doc<'_>) -> Truth
    ensures verdict { (shown : Event) → IsEvent event.now shown → result ≡ verdict shown expr.now.ops.items }
    ensures value { (shown : Event) (tree : Tree or) → IsEvent event.now shown → IsExpr expr.now.ops.items tree → result ≡ truth (value shown tree) }
{
    let mut stack = Stack::new();
    for op in expr.ops.iter() {
        step(event, op, &mut stack);
    }
    truth_of(stack.pop())
}
