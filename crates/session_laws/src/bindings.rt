//! Of requests to output bindings.
ghost use Rattle.std.specs.Prelude.{ℕ, List};
ghost use Rattle.api_routes.specs.declared.route.Route.TheVariants.{Binding};
ghost use Rattle.sidecar_objects.specs.Kind.{CellsAt};
ghost use Rattle.session_laws.specs.Served.{IsServed, Served};
ghost use Rattle.session_laws.specs.Bindings.{CronIsUnknown, IsAnsweredWhereAllIsWell, IsBindingAnswered};

use keeper_core::Keeper;
use sidecar_objects::ObjectKinds;
use state_core::Store;

/// A request to a binding has the answer of one of these causes: there is no binding of the name; its body is malformed; the last reply is told, by its status; the link
/// counted a fault; it counted an expiry, or a call took longer than its limit; the breaker turned it away; a cell is exhausted; or there was no memory.
pub fn each_answer_of_a_binding_has_its_cause<K: Keeper>()
    ensures { (cells : CellsAt _) (name : List ℕ) (served : Served _) → IsServed ⟦<Store<K> as ObjectKinds>⟧.kinds cells (Binding name) served → IsBindingAnswered name served }
{}

/// Where there is a binding of the name and the body is not malformed, the link counts neither a fault nor an expiry, no call takes longer than its limit, no breaker turns
/// one away, no cell is exhausted and the last reply is one of 200 to 299, the answer is 200 with its content, or 204 where it has none; or there was no memory.
pub fn a_binding_is_answered_where_all_is_well<K: Keeper>()
    ensures { (cells : CellsAt _) (name : List ℕ) (served : Served _) → IsServed ⟦<Store<K> as ObjectKinds>⟧.kinds cells (Binding name) served → IsAnsweredWhereAllIsWell name served }
{}

/// A cron component is no output binding: a request to one does nothing, and is answered that no binding of the name is known; or there was no memory.
pub fn a_cron_component_is_unknown_to_requests<K: Keeper>()
    ensures { (cells : CellsAt _) (name : List ℕ) (served : Served _) → IsServed ⟦<Store<K> as ObjectKinds>⟧.kinds cells (Binding name) served → CronIsUnknown name served }
{}
