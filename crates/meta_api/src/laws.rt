//! What holds of the definitions that the contracts cite, as functions whose contract is the law.
ghost use Rattle.std.specs.Prelude.{◌≡◌, List, [], ◌∷◌, ◌++◌, ℕ};
ghost use Rattle.turn_cell.specs.History.{IsLegal};
ghost use Rattle.meta_api.specs.declared.notes.Notes.{Notes};
ghost use Rattle.meta_api.specs.History.{Step, book_after};
ghost use Rattle.meta_api.specs.Fits.{Fits};
ghost use Rattle.meta_api.specs.Laws.{Rise, last_value, value_in};

use crate::Notes;
use turn_cell::Object;

/// The book that a history leads to from an empty one has each name once, in byte order, with the value that was noted for it last; a
/// name for which nothing was noted isn't there.
pub fn a_book_has_what_was_noted_last()
    ensures rise { (history : List Step) → Rise (book_after [] history) }
    ensures last { (history : List Step) (name : List ℕ) → value_in name (book_after [] history) ≡ last_value name history }
{}

/// Each reply is one that fits its command.
pub fn replies_fit()
    ensures { (first : Notes) (history before after : List Step) (entry : Step) → IsLegal ⟦<Notes as Object>⟧ first history → history ≡ before ++ entry ∷ after → Fits entry.cmd entry.reply }
{}
