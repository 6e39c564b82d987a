ghost use Rattle.std.specs.Prelude.{◌≡◌, ◌≤◌, ◌<◌, ◌+◌, option_map, IfOk};
ghost use Rattle.std.specs.Option.{option_copied};
ghost use Rattle.std.specs.FinMap.{empty, insert, remove};
ghost use Rattle.keeper_core.specs.Rows.{row_at};
ghost use Rattle.keeper_core.specs.Growth.{bytes_at};
ghost use Rattle.keeper_core.specs.Table.{row_of, fed};

use crate::growth::found_bytes;
use crate::prepared::StoredRow;
use crate::secret_state::SecretState;
use side_base::NoMemory;
use std::alloc::Global;
use std::collections::HashMap;
use std::marker::Model;

/// Rows by their keys. Contracts see a finite map, for how many further keys there is room, and the hasher that keys are fed to.
#[derive(Drop)]
pub(crate) struct HashedRows {
    map: HashMap<Vec<u8>, StoredRow, SecretState>,
}

impl Model for HashedRows {
    ghost use Rattle.std.specs.HashMap.{hasher_of, spare};
    ghost use Rattle.keeper_core.specs.Table.{Table, table_code, rows_of};

    ghost Value = { Table };

    ghost coded = { table_code };

    ghost view = { λ a. record { rows = rows_of a.map.entries; room = spare a.map; hasher = (hasher_of a.map).fed } };
}

impl HashedRows {
    /// No rows; takes no memory. The secret is fed to the hash of each key.
    pub(crate) fn new(alloc: Global, secret: [u8; 16]) -> HashedRows
        ensures rows { result.rows ≡ empty }
        ensures hasher { result.hasher ≡ fed secret }
    {
        HashedRows {
            map: HashMap::with_hasher(alloc, SecretState::new(secret)),
        }
    }

    pub(crate) fn get(&self, key: &[u8]) -> Option<&StoredRow>
        ensures { option_map row_of (option_copied result) ≡ row_at self.now.rows key.now }
    {
        self.map.get(key)
    }

    /// Takes memory for further keys. Where it fails, nothing has changed.
    pub(crate) fn reserve(&mut self, additional: usize) -> Result<(), NoMemory>
        ensures rows { self.new.rows ≡ self.old.rows }
        ensures room { IfOk result (λ _. additional ≤ self.new.room) }
        ensures hasher { self.new.hasher ≡ self.old.hasher }
    {
        self.map.reserve(additional)
    }

    /// Gives a key a row, and answers what it took before; takes no memory.
    pub(crate) fn insert(&mut self, key: Vec<u8>, row: StoredRow) -> u128
        requires { 0 < self.old.room }
        ensures rows { self.new.rows ≡ insert self.old.rows key.items (row_of row) }
        ensures room { self.old.room ≤ self.new.room + 1 }
        ensures took { result ≡ bytes_at self.old.rows key.items }
        ensures hasher { self.new.hasher ≡ self.old.hasher }
    {
        let key_len = key.len();
        match self.map.insert(key, row) {
            Ok(old) => found_bytes(key_len, &old),
            Err(_) => unreachable!(),
        }
    }

    /// Takes a key and its row out, where it has one, and answers what it took.
    pub(crate) fn remove(&mut self, key: &[u8]) -> u128
        ensures rows { self.new.rows ≡ remove self.old.rows key.now }
        ensures room { self.old.room ≤ self.new.room }
        ensures took { result ≡ bytes_at self.old.rows key.now }
        ensures hasher { self.new.hasher ≡ self.old.hasher }
    {
        let old = self.map.remove(key);
        found_bytes(key.len(), &old)
    }
}
