//! Of what requests do to the objects.
ghost use Rattle.sidecar_objects.specs.Kind.{CellsAt};
ghost use Rattle.api_routes.specs.declared.route.Route.{Route};
ghost use Rattle.session_laws.specs.Served.{IsServed, Served};
ghost use Rattle.session_laws.specs.Histories.{StepsStandInHistories};

use keeper_core::Keeper;
use sidecar_objects::ObjectKinds;
use state_core::Store;

/// Each step that was made for a request stands in the history that its pass has seen of the object, and is one that the object's definition allows after what stands
/// before it; whatever steps other passes made between.
pub fn what_was_done_stands_in_the_histories<K: Keeper>()
    ensures { (cells : CellsAt _) (asked : Route) (served : Served _) → IsServed ⟦<Store<K> as ObjectKinds>⟧.kinds cells asked served → StepsStandInHistories ⟦<Store<K> as ObjectKinds>⟧.kinds cells served }
{}
