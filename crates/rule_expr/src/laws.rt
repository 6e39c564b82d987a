//! What holds of the definitions that the contracts cite, as functions whose contract is the law.
ghost use Rattle.std.specs.Prelude.{◌≡◌, Bool, true, false, Option, Some, None, codes, List, ℕ};
ghost use Rattle.json_text.specs.declared.doc.Doc.{Doc};
ghost use Rattle.json_text.specs.Doc.{Shows};
ghost use Rattle.rule_expr.specs.Rules.{IsFront, IsRule};
ghost use Rattle.rule_value.specs.Standing.{IsEvent};
ghost use Rattle.rule_value.specs.Trees.{Tree, or, unary, choice, no_items};
ghost use Rattle.rule_value.specs.Values.{Event, Value, both, either, value, flag, number, text, null, equal, compared};
ghost use Rattle.rule_expr.specs.Parts.{after_blanks};
ghost use Rattle.rule_expr.specs.Places.{ended as at_end};
ghost use Rattle.rule_expr.specs.Walks.{Comes, IsRefused, start};
ghost use Rattle.rule_value.specs.Wholes.{whole, whole_of};
ghost use Rattle.rule_expr.specs.declared.error.RuleErr.{RuleErr};
ghost use Rattle.rule_value.specs.declared.part.Relation.TheVariants.{Equal, Unlike};

use json_text::laws::the_root_is_the_value_of_the_text;

/// A document that was read shows an event, over which each rule has its value: that of the text and its values.
pub fn a_document_shows_an_event()
    ensures { (doc : Doc) (event : Event) (shows : Shows doc event.bytes) → event.values ≡ shows.values → IsEvent doc event }
{
    the_root_is_the_value_of_the_text();
}

/// A text that is a rule is refused nowhere, and one that is refused is so at one place and for one cause.
pub fn rules_and_refusals()
    ensures apart { (text : List ℕ) (tree : Tree or) (why : RuleErr) → IsRule text tree → IsRefused text why → ⊥ }
    ensures once { (text : List ℕ) (one other : RuleErr) → IsRefused text one → IsRefused text other → one ≡ other }
{}

/// Each text that the table takes to its end is a rule; and the parts that stand before a refusal are the first ones of a tree of the
/// grammar, so that the text leaves the grammar no sooner. The depth of that tree is not counted.
pub fn ends_and_fronts()
    ensures ends { (text : List ℕ) → Comes start (after_blanks text) at_end → (tree : Tree or) × IsRule text tree }
    ensures fronts { (text : List ℕ) (why : RuleErr) (refused : IsRefused text why) → IsFront text refused.comes.rest }
{}

/// False on either side of `&&` makes it false, true on either side of `||` makes it true, whatever stands on the other, an
/// error included; otherwise an error makes an error.
pub fn truth_values_beside_errors()
    ensures both_left { (other : Option Bool) → both (Some false) other ≡ Some false }
    ensures both_right { (other : Option Bool) → both other (Some false) ≡ Some false }
    ensures both_error { (both (Some true) None ≡ None) × (both None (Some true) ≡ None) }
    ensures either_left { (other : Option Bool) → either (Some true) other ≡ Some true }
    ensures either_right { (other : Option Bool) → either other (Some true) ≡ Some true }
    ensures either_error { (either (Some false) None ≡ None) × (either None (Some false) ≡ None) }
{}

/// Nothing is in the empty list, and that is no error, whatever is looked for.
pub fn nothing_is_in_the_empty_list()
    ensures { (event : Event) (wanted : Tree unary) → value event (choice wanted no_items) ≡ flag false }
{}

/// Numbers at the ends of 64 bits, and texts that spell none.
#[tactic(auto, unfolding(rule_value::specs::Wholes::whole_of))]
pub fn numbers_of_texts()
    ensures least { whole_of (codes "-9223372036854775808") ≡ Some (whole true 9223372036854775808) }
    ensures below_least { whole_of (codes "-9223372036854775809") ≡ None }
    ensures greatest { whole_of (codes "9223372036854775807") ≡ Some (whole false 9223372036854775807) }
    ensures above_greatest { whole_of (codes "9223372036854775808") ≡ None }
    ensures zero { whole_of (codes "-0") ≡ Some (whole false 0) }
    ensures sign_alone { whole_of (codes "-") ≡ None }
    ensures fraction { whole_of (codes "1.0") ≡ None }
    ensures blank { whole_of (codes " 1") ≡ None }
{}
