//! Of requests of the state API.
ghost use Rattle.std.specs.Prelude.{◌≡◌, ℕ, List, Some};
ghost use Rattle.api_routes.specs.declared.route.Route.{Route};
ghost use Rattle.sidecar_objects.specs.Kind.{CellsAt, stores};
ghost use Rattle.sidecar_core.specs.Exchange.{store_in};
ghost use Rattle.state_core.specs.declared.store.Store.{Store as StoreRecord};
ghost use Rattle.state_core.specs.History.{Step};
ghost use Rattle.state_core.specs.Store.{held_by, keeper_of};
ghost use Rattle.session_laws.specs.Served.{IsServed, Served};
ghost use Rattle.session_laws.specs.Histories.{IsStepIn};
ghost use Rattle.session_laws.specs.States.{IsAnsweredWhereAllIsWell, IsStateAnswered, SucceedsBehind};

use keeper_core::Keeper;
use sidecar_objects::ObjectKinds;
use state_core::Store;

/// A request of the state API has the answer of one of these causes: there is no store of the name; the request is malformed; what the store replied last to its command;
/// the breaker turned it away; a cell is exhausted; or there was no memory.
pub fn each_answer_of_a_store_has_its_cause<K: Keeper>()
    ensures { (cells : CellsAt _) (asked : Route) (name : List ℕ) (served : Served _) → IsServed ⟦<Store<K> as ObjectKinds>⟧.kinds cells asked served → store_in asked ≡ Some name → IsStateAnswered asked name served }
{}

/// Where there is a store of the name, the request is not malformed, no breaker turns it away, no cell is exhausted and the store's last reply is a success, that success is
/// answered, or there was no memory.
pub fn a_store_answers_where_all_is_well<K: Keeper>()
    ensures { (cells : CellsAt _) (asked : Route) (name : List ℕ) (served : Served _) → IsServed ⟦<Store<K> as ObjectKinds>⟧.kinds cells asked served → store_in asked ≡ Some name → IsAnsweredWhereAllIsWell asked name served }
{}

/// By the history of a store: where each item of a command is current, and versions and room suffice for its writes, or the values that a bulk get asks for aren't too long,
/// the store's reply is a success, unless its keeper counted a fault, or there was no memory.
pub fn a_store_refuses_nothing_without_cause<K: Keeper>()
    ensures { (first : StoreRecord K K.Keeper) (seen : List Step) (step : Step) (there : IsStepIn (⟦<Store<K> as ObjectKinds>⟧.kinds stores) first seen step) → SucceedsBehind (held_by K.Keeper first) (K.faults (keeper_of first)) there.before step }
{}
