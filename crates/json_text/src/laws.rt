//! What holds of the definitions that the contracts cite, as functions whose contract is the law.
ghost use Rattle.std.specs.Prelude.{◌≡◌, ℕ, ◌<◌, List, ◌↔◌, false, length, ◌+◌, ◌≤◌};
ghost use Rattle.std.specs.List.{AllByRecursion};
ghost use Rattle.std.specs.Str.{IsUtf8};
ghost use Rattle.json_text.specs.declared.doc.Doc.{Doc};
ghost use Rattle.json_text.specs.declared.doc.Node.{Node};
ghost use Rattle.json_text.specs.declared.spot.Spot.{Spot};
ghost use Rattle.json_text.specs.Forest.{Forest, grows, count};
ghost use Rattle.json_text.specs.Doc.{IsRoot, StandsAt, Shows};
ghost use Rattle.json_text.specs.Root.{IsValueOf};
ghost use Rattle.json_text.specs.Visits.{IsVisited, HasValue};
ghost use Rattle.json_text.specs.Structure.{IsJsonText};
ghost use Rattle.json_text.specs.Written.{ReadsBack};
ghost use Rattle.json_text.specs.Grammar.{IsText};
ghost use Rattle.json_text.specs.Shape.{AreInRow, nesting, IsPlaced};
ghost use Rattle.json_text.specs.Moved.{IsTextAlone, IsCleanAlone};
ghost use Rattle.json_text.specs.MapTexts.{Written, IsWritten, ShowsMembers, IsDeep, map_bytes, map_of};
ghost use Rattle.json_text.specs.Faults.{IsClean, IsLoneAt};

pub use json_lexemes::laws::words_are_those_of_the_productions;

/// What `push_string` writes of a text is a JSON text of one string in which nothing is wrong, so that `read` takes it
/// unless memory runs out; and the text of that string, as `Doc::text_of` tells it, is the text that was written.
pub fn a_written_text_reads_back()
    ensures { (text : List ℕ) → IsUtf8 text → ReadsBack text }
{}

/// At each node of a document, `Doc::first` and then `Doc::next` until there is none visit all items of the list, or the
/// values of all members of the map, each once and in order. Each value of a text that was read has such a node.
pub fn a_walk_visits_all_items()
    ensures visits { (doc : Doc) (node : Node) (spot : Spot) (children later : Forest) → StandsAt doc node (grows spot children later) → IsVisited doc node children }
    ensures stands { (doc : Doc) (bytes : List ℕ) (node : Node) (shows : Shows doc bytes) → node.number < count shows.values → HasValue doc node }
{}

/// The texts of the grammar are those of the productions of RFC 8259 for texts, values, objects and arrays, with the same
/// values at the same places.
pub fn texts_are_those_of_the_productions()
    ensures { (bytes : List ℕ) (values : Forest) → IsText bytes values ↔ IsJsonText bytes values }
{}

/// The values of a text stand within it, one behind the other and each within the list or the map that holds it; the values
/// of maps, and no others, have names; and only lists and maps hold values.
pub fn values_stand_in_rows()
    ensures { (bytes : List ℕ) (values : Forest) → IsText bytes values → AreInRow false 0 (length bytes) values }
{}

/// Nothing is wrong with a text exactly where its values are nested at most 64 deep and the escape of no surrogate stands
/// alone in it.
pub fn what_may_be_wrong_with_a_text()
    ensures { (bytes : List ℕ) (values : Forest) → IsText bytes values → IsClean bytes (length bytes + 1) ↔ ((nesting values ≤ 64) × ((at : ℕ) → at ≤ length bytes → ¬ IsLoneAt bytes at)) }
{}

/// Each value of a text that was read stands within its bytes, behind its name and round what it holds, and is nested 64 deep
/// at most.
pub fn each_value_has_its_place()
    ensures { (doc : Doc) (bytes : List ℕ) (node : Node) (spot : Spot) (children later : Forest) → Shows doc bytes → StandsAt doc node (grows spot children later) → IsPlaced bytes spot children }
{}

/// The root of a document is the one value that its text is. Where it is a map, all that it holds are members.
pub fn the_root_is_the_value_of_the_text()
    ensures { (doc : Doc) (bytes : List ℕ) (root : Node) → Shows doc bytes → IsRoot root → IsValueOf doc bytes root }
{}

/// A text has one tree at most.
pub fn a_text_has_one_tree()
    ensures { (bytes : List ℕ) (values others : Forest) → IsText bytes values → IsText bytes others → values ≡ others }
{}

/// The bytes of each value of a text that was read are a text by themselves, in which nothing is wrong: the same values, with
/// places that count from its start.
pub fn each_value_is_a_text()
    ensures text { (doc : Doc) (bytes : List ℕ) (node : Node) (spot : Spot) (children later : Forest) → Shows doc bytes → StandsAt doc node (grows spot children later) → IsTextAlone bytes spot children }
    ensures clean { (doc : Doc) (bytes : List ℕ) (node : Node) (spot : Spot) (children later : Forest) → Shows doc bytes → StandsAt doc node (grows spot children later) → IsCleanAlone bytes spot }
{}

/// A map written of names and of values that are texts by themselves, joined by commas, is a text: one level deeper, with
/// these members, whose names and values' bytes are those that were written. Nothing is wrong with it, where no value is
/// nested more than 63 deep.
pub fn a_written_map_is_a_text()
    ensures text { (members : List Written) → AllByRecursion IsWritten members → IsText (map_bytes members) (map_of members) }
    ensures shown { (members : List Written) → ShowsMembers (map_bytes members) 1 members }
    ensures clean { (members : List Written) → AllByRecursion IsWritten members → AllByRecursion (IsDeep 63) members → IsClean (map_bytes members) (length (map_bytes members) + 1) }
{}
