use keeper_core::Keeper;
use state_core::Store;

/// Room for the stores and their keepers where the cells are closed; it is taken at the start, so that the end takes no memory.
#[derive(Drop)]
pub struct Room<K: Keeper> {
    pub(crate) closed: Vec<Store<K>>,
    pub(crate) kept: Vec<K>,
}
