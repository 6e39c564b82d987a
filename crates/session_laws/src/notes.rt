//! Of requests to metadata.
ghost use Rattle.std.specs.Prelude.{ℕ, List};
ghost use Rattle.api_routes.specs.declared.route.Route.TheVariants.{Metadata, SetMetadata};
ghost use Rattle.sidecar_objects.specs.Kind.{CellsAt};
ghost use Rattle.session_laws.specs.Served.{IsServed, Served};
ghost use Rattle.session_laws.specs.Notes.{IsListedWhereAllIsWell, IsMetadataAnswered, IsNoteAnswered, IsNotedWhereAllIsWell};

use keeper_core::Keeper;
use sidecar_objects::ObjectKinds;
use state_core::Store;

/// Metadata lists the values that are noted, all components and all subscriptions of the configuration, unless the book's cell is exhausted or there was no memory.
pub fn metadata_lists_all<K: Keeper>()
    ensures cause { (cells : CellsAt _) (served : Served _) → IsServed ⟦<Store<K> as ObjectKinds>⟧.kinds cells Metadata served → IsMetadataAnswered served }
    ensures listed { (cells : CellsAt _) (served : Served _) → IsServed ⟦<Store<K> as ObjectKinds>⟧.kinds cells Metadata served → IsListedWhereAllIsWell served }
{}

/// A value is noted where it is UTF-8, the book is not full and no cell is exhausted, unless there was no memory; any other answer has one of these causes.
pub fn a_value_is_noted_where_all_is_well<K: Keeper>()
    ensures cause { (cells : CellsAt _) (name : List ℕ) (served : Served _) → IsServed ⟦<Store<K> as ObjectKinds>⟧.kinds cells (SetMetadata name) served → IsNoteAnswered served name }
    ensures noted { (cells : CellsAt _) (name : List ℕ) (served : Served _) → IsServed ⟦<Store<K> as ObjectKinds>⟧.kinds cells (SetMetadata name) served → IsNotedWhereAllIsWell served name }
{}
