ghost use Rattle.std.specs.Prelude.{◌≡◌, ◌≤◌, List, [], length, map};
ghost use Rattle.std.specs.Vec.{vec_capacity};
ghost use Rattle.turn_cell.specs.Passes.{EachAlone};
ghost use Rattle.turn_pass.specs.Pass.{AreClosed};
ghost use Rattle.state_core.specs.declared.store.Store.{Store as StoreRecord};
ghost use Rattle.state_core.specs.Store.{keeper_of};
ghost use Rattle.sidecar_core.specs.Started.{IsRoomFor};

use crate::{Config, Room, Shared};
use keeper_core::Keeper;
use sidecar_objects::Pass;
use state_core::Store;
use turn_cell::Object;

impl<K: Keeper> Shared<K> {
    /// Ends all cells by a pass that is alone, and gives the configuration back, and the keepers of the stores, in order. Takes no memory.
    pub fn close(self, pass: Pass<K>, room: Room<K>) -> (Config, Vec<K>)
        requires room { IsRoomFor (length self.objects.stores.items) room }
        requires alone { EachAlone self.objects.stores.items pass.stores.items }
        ensures config { result.0 ≡ self.config }
        ensures keepers { (stores : List (StoreRecord K K.Keeper)) × AreClosed ⟦<Store<K> as Object>⟧.stands self.objects.stores.items pass.stores.items stores × (result.1.items ≡ map keeper_of stores) }
    {
        let Shared {
            config,
            objects,
            alloc: _,
            routers: _,
            sites: _,
            brokers: _,
            crons: _,
            notes: _,
            sub_notes: _,
        } = self;
        let Room {
            mut closed,
            mut kept,
        } = room;
        objects.close(pass, &mut closed);
        give_back(closed, &mut kept);
        (config, kept)
    }
}

/// Puts the keepers of stores, in order, into an empty list whose room was taken before.
fn give_back<K: Keeper>(stores: Vec<Store<K>>, keepers: &mut Vec<K>)
    requires bare { keepers.old.items ≡ [] }
    requires room { length stores.items ≤ vec_capacity keepers.old }
    ensures { keepers.new.items ≡ map keeper_of stores.items }
{
    for store in stores {
        keepers.push_reserved(store.into_keeper());
    }
}
