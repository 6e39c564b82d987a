use crate::{Changes, RowView};

/// Why changes were not made.
#[derive(Clone, Copy, Debug, PartialEq, Eq)]
pub enum KeepErr {
    /// The device below failed; its count of faults rose.
    Failed,
    /// `len`, the size after the changes, exceeds the limit.
    Full { len: u128 },
    /// There is no memory for the changes.
    NoMemory,
}

/// Rows by their keys, each with the version of its write, and the version that the next write gets.
///
/// A commit makes all of its changes or none.
pub trait Keeper: Drop {
    ghost use Rattle.std.specs.Prelude.{◌≡◌, ◌≢◌, ℕ, Bool, ◌≤◌, ◌<◌, ◌^◌, List, [], ◌∷◌, ◌++◌, Option, Some, None, Err, option_map, OnOk, OnErr};
    ghost use Rattle.side_world.specs.Faults.{Rose};
    ghost use Rattle.keeper_core.specs.Faults.{Rises};
    ghost use Rattle.keeper_core.specs.Rows.{Rows, row_at, next_lapsed, seen, IsCounted};
    ghost use Rattle.keeper_core.specs.Changes.{after_changes, VersionsAreBelow};
    ghost use Rattle.keeper_core.specs.declared.changes.Change.{Change};
    ghost use Rattle.keeper_core.specs.declared.changes.Changes.{Changes};
    ghost use Rattle.keeper_core.specs.declared.keeper.KeepErr.TheVariants.{Failed, Full};

    // The rows, each under its key.
    ghost rows: { Self → Rows };

    // The version that the next write gets.
    ghost next: { Self → ℕ };

    // What the rows take, in bytes: of memory or of a file.
    ghost size: { Self → ℕ };

    // The greatest size. It stays.
    ghost limit: { Self → ℕ };

    // How often a commit has failed. The count stops at 2^64 - 1.
    ghost faults: { Self → ℕ };

    // Whether a commit can fail. It stays.
    ghost may_fail: { Self → Bool };

    // The size that changes of these rows lead to, from this size. It stays.
    ghost size_after: { Self → Rows → ℕ → List Change → ℕ };

    // Commits have led from the first state to the second, in order: `Some` of its changes is one that was made, `None` one that was
    // not. What the keeper says of the place where its rows are kept goes over from the one state to the other.
    ghost leads: { Self → List (Option Changes) → Self → Type 0 };

    /// What a key has. Takes no memory.
    fn find(&self, key: &[u8]) -> Option<RowView<'_>>
        ensures { seen result ≡ row_at (rows self.now) key.now };

    /// The first key in byte order, of those behind `after` where it is given, whose row is not live at `moment`, in
    /// milliseconds since 1970. Takes no memory, and costs a logarithm of the rows.
    fn next_lapsed(&self, after: Option<&[u8]>, moment: u64) -> Option<&[u8]>
        ensures { option_map (λ key. key.now) result ≡ next_lapsed (rows self.now) (option_map (λ key. key.now) after.entry) moment };

    /// The version that the next write gets. Takes no memory.
    fn next_version(&self) -> u64
        ensures { result ≡ next self.now };

    /// Makes the changes, in order, all or none.
    fn commit(&mut self, changes: Changes) -> Result<(), KeepErr>
        requires grows { next self.old ≤ changes.next }
        requires most { changes.next ≤ 2 ^ 62 }
        requires below { VersionsAreBelow changes.next changes.list }
        ensures rows { OnOk result (rows self.new ≡ after_changes (rows self.old) changes.list) }
        ensures next { OnOk result (next self.new ≡ changes.next) }
        ensures size { OnOk result (size self.new ≡ size_after self.old (rows self.old) (size self.old) changes.list) }
        ensures fits { OnOk result (size_after self.old (rows self.old) (size self.old) changes.list ≤ limit self.old) }
        ensures failed { result ≡ Err Failed → Rose (faults self.old) (faults self.new) }
        ensures full { (len : ℕ) → result ≡ Err (Full len) → (len ≡ size_after self.old (rows self.old) (size self.old) changes.list) × (limit self.old < len) }
        ensures unchanged { OnErr result ((rows self.new ≡ rows self.old) × (next self.new ≡ next self.old) × (size self.new ≡ size self.old)) }
        ensures stays { (limit self.new ≡ limit self.old) × ((rows : Rows) (size : ℕ) (changes : List Change) → size_after self.new rows size changes ≡ size_after self.old rows size changes) × (may_fail self.new ≡ may_fail self.old) }
        ensures rises { Rises (may_fail self.old) (faults self.old) (faults self.new) }
        ensures steady { (result ≡ Err Failed → ⊥) → faults self.new ≡ faults self.old }

        // What was made is told as it was given, and nothing else is.
        ensures leads { OnOk result (leads self.old (Some changes ∷ []) self.new) }
        ensures leads_nowhere { OnErr result (leads self.old (None ∷ []) self.new) };

    // `next` is from 1 to 2^62, and above every version of the rows.
    ghost counted: { (keeper : Self) → IsCounted (rows keeper) (next keeper) };

    // Without a commit a state leads to itself.
    ghost at_rest: { (keeper : Self) → leads keeper [] keeper };

    // Commits go on where others have led.
    ghost goes_on: { (first mid last : Self) (before behind : List (Option Changes)) → leads first before mid → leads mid behind last → leads first (before ++ behind) last };
}
