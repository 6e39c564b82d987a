//! The rows of a new message.
ghost use Rattle.std.specs.Prelude.{◌≡◌, ◌<◌, ◌^◌, [], ◌∷◌, length, option_map, IfOk};
ghost use Rattle.std.specs.List.{All};
ghost use Rattle.std.specs.Option.{ForSome};
ghost use Rattle.std.specs.Arc.{arc_value};
ghost use Rattle.retry_core.specs.RetryPolicy.{IsWithinLimit};
ghost use Rattle.retry_core.specs.RetryRun.{run_after};
ghost use Rattle.ledger_core.specs.Size.{new_drops};
ghost use Rattle.ledger_core.specs.Rows.{entries_in, nodes_of};
ghost use Rattle.ledger_core.specs.After.{fresh, fresh_one, entries_for};

use crate::place::Place;
use crate::plan::PlanTable;
use crate::tree::{Node, StoredRow, Tree};
use crate::{Aim, Aims, Plan};
use retry_core::RetryRun;
use side_base::{Blob, NoMemory, Sequence};
use std::alloc::Global;
use std::sync::Arc;

/// The rows of a new message, with all the memory that they take.
#[derive(Drop)]
pub(crate) struct NewRows {
    pub(crate) nodes: Sequence<Box<Node>>,
    /// How many aims have no path, and so no row.
    pub(crate) drops: u128,
}

/// What the rows of a message have in common.
#[derive(Drop)]
pub(crate) struct Origin {
    pub(crate) no: u64,
    pub(crate) event: Arc<Blob, Global>,
    pub(crate) hops: u64,
    /// The moment from which on they are due.
    pub(crate) due: u64,
}

/// The rows that aims make.
pub(crate) fn new_rows(
    alloc: Global,
    plans: &PlanTable,
    origin: &Origin,
    aims: &Aims,
) -> Result<NewRows, NoMemory>
    requires { All (λ aim. aim.sub < length plans.now) aims.now }
    ensures rows { IfOk result (λ rows. entries_in rows.nodes ≡ entries_for plans.now (fresh origin.now.no (arc_value origin.now.event) origin.now.hops origin.now.due aims.now)) }
    ensures drops { IfOk result (λ rows. rows.drops ≡ new_drops aims.now) }
    ensures few { IfOk result (λ rows. rows.drops < 2 ^ 64) }
    ensures short { IfOk result (λ rows. length rows.nodes < 2 ^ 64) }
{
    let mut nodes = Sequence::new(alloc);
    let mut drops = 0;
    for i in 0..aims.len() {
        match new_row(alloc, plans, origin, aims.at(i))? {
            Some(node) => nodes.push(node)?,
            None => drops += 1,
        }
    }
    Ok(NewRows { nodes, drops })
}

/// The row that an aim makes.
fn new_row(
    alloc: Global,
    plans: &PlanTable,
    origin: &Origin,
    aim: &Aim,
) -> Result<Option<Box<Node>>, NoMemory>
    requires { aim.now.sub < length plans.now }
    ensures { IfOk result (λ node. nodes_of node ≡ entries_for plans.now (fresh_one origin.now.no (arc_value origin.now.event) origin.now.hops origin.now.due aim.now ∷ [])) }
{
    let Some(path) = &aim.path else {
        return Ok(None);
    };
    let plan = plans.at(aim.sub);
    let row = StoredRow {
        path: path.copy()?,
        event: Arc::try_clone(&origin.event)?,
        hops: origin.hops,
        attempt: 1,
        run: first_run(&plan),
        dead: plan.dead,
    };
    let node = Node {
        place: Place {
            at: origin.due,
            no: origin.no,
            sub: aim.sub,
        },
        left: Tree::new(),
        right: Tree::new(),
        row,
    };
    Ok(Some(Box::new(alloc, node)?))
}

/// The first attempt under a plan, where it has a policy.
fn first_run(plan: &Plan) -> Option<RetryRun>
    requires { ForSome plan.now.retry IsWithinLimit }
    ensures { result ≡ option_map (λ policy. run_after policy []) plan.now.retry }
{
    match &plan.retry {
        Some(policy) => Some(RetryRun::start(policy)),
        None => None,
    }
}
