// Which commands may be given.
ghost use Rattle.std.specs.Prelude.{◌↔◌, IsTrue};
ghost use Rattle.std.specs.List.{All};
ghost use Rattle.state_core.specs.Taken.{IsTaken, IsTtl, HasTtl};

use state_core::{Cmd, Items, Op, Ops};

fn is_ttl(ttl: Option<u64>) -> bool
    ensures { IsTrue result ↔ IsTtl ttl }
{
    match ttl {
        None => true,
        Some(seconds) => 1 <= seconds && seconds < 1 << 32,
    }
}

fn has_ttl(op: &Op) -> bool
    ensures { IsTrue result ↔ HasTtl op.now }
{
    match op {
        Op::Upsert(item) => is_ttl(item.ttl),
        Op::Remove { .. } => true,
    }
}

fn have_ttl(ops: &Ops) -> bool
    ensures { IsTrue result → All HasTtl ops.now }
{
    for place in 0..ops.len() {
        if !has_ttl(ops.at(place)) {
            return false;
        }
    }
    true
}

fn items_have_ttl(items: &Items) -> bool
    ensures { IsTrue result → All (λ item. IsTtl item.ttl) items.now }
{
    for place in 0..items.len() {
        if !is_ttl(items.at(place).ttl) {
            return false;
        }
    }
    true
}

/// Whether a command may be given.
pub(crate) fn is_taken(cmd: &Cmd) -> bool
    ensures { IsTrue result → IsTaken cmd.now }
{
    match cmd {
        Cmd::Save { items, .. } => items_have_ttl(items),
        Cmd::Transact { ops, .. } => have_ttl(ops),
        Cmd::Get { .. } | Cmd::Bulk { .. } | Cmd::Delete { .. } => true,
    }
}
