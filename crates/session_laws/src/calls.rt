//! Of calls of apps.
ghost use Rattle.std.specs.Prelude.{ℕ, List};
ghost use Rattle.api_routes.specs.declared.route.Route.TheVariants.{Invoke};
ghost use Rattle.sidecar_objects.specs.Kind.{CellsAt};
ghost use Rattle.session_laws.specs.Served.{IsServed, Served};
ghost use Rattle.session_laws.specs.Calls.{IsAnsweredWhereAllIsWell, IsCallAnswered};

use keeper_core::Keeper;
use sidecar_objects::ObjectKinds;
use state_core::Store;

/// A call of an app has the answer of one of these causes: there is no app port, or no peer of the id; its last reply is passed on; the link counted a fault; it counted
/// an expiry, or a call took longer than its limit; the breaker turned it away; a cell is exhausted; or there was no memory.
pub fn each_answer_of_a_call_has_its_cause<K: Keeper>()
    ensures { (cells : CellsAt _) (id rest : List ℕ) (served : Served _) → IsServed ⟦<Store<K> as ObjectKinds>⟧.kinds cells (Invoke id rest) served → IsCallAnswered id rest served }
{}

/// Where the app is there, the link counts neither a fault nor an expiry, no call takes longer than its limit, no breaker turns one away, no cell is exhausted and the last
/// reply is below 500, that reply is passed on, or there was no memory.
pub fn a_call_is_answered_where_all_is_well<K: Keeper>()
    ensures { (cells : CellsAt _) (id rest : List ℕ) (served : Served _) → IsServed ⟦<Store<K> as ObjectKinds>⟧.kinds cells (Invoke id rest) served → IsAnsweredWhereAllIsWell id rest served }
{}
