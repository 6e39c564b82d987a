// What holds of the definitions that the contracts cite, as functions whose contract is the law.
ghost use Rattle.std.specs.Prelude.{◌≡◌, ℕ, List, Option};
ghost use Rattle.case_text.specs.Escape.{IsSaid};
ghost use Rattle.case_text.specs.Reading.{undone};
ghost use Rattle.case_text.specs.declared.escape.Place.TheVariants as Place;

/// What a reader takes a text for is what the tokens say that are written so, and nothing where none are. A text says one thing.
pub fn a_text_says_what_its_tokens_say()
    ensures said { (text : List ℕ) → IsSaid text (undone Place.Outside text) }
    ensures one { (text : List ℕ) (first second : Option (List ℕ)) → IsSaid text first → IsSaid text second → first ≡ second }
{}
