//! Laws about words, as functions whose contracts state them.

ghost use Rattle.std.specs.Prelude.{◌≡◌, ℕ, List, [], ◌∷◌, All, Some, None, true, codes};
ghost use Rattle.sidecar_words.specs.Spelling.{options, flags, Spells, Pair, is_plain};
ghost use Rattle.sidecar_words.specs.Meaning.{Means};
ghost use Rattle.sidecar_words.specs.declared.given.Words.{Words as WordsRecord};

use crate::Mode;

/// Words spell at most one list of names and values, and mean at most one thing.
pub fn words_mean_one_thing()
    ensures pairs { (words : List (List ℕ)) (pairs others : List Pair) → Spells options flags words pairs → Spells options flags words others → pairs ≡ others }
    ensures meaning { (words : List (List ℕ)) (one other : WordsRecord) → Means words one → Means words other → one ≡ other }
{}

/// A word that is a dash or two, or begins with one dash and no second, stands in no words that mean something.
pub fn words_are_plain()
    ensures { (words : List (List ℕ)) (given : WordsRecord) → Means words given → All (λ word. is_plain word ≡ true) words }
{}

/// The definition at words that are written out.
pub fn words_of_examples()
    ensures stdio { Means (codes "--app-id" ∷ codes "a" ∷ codes "--stdio" ∷ []) (record { app = codes "a"; resources = None; port = 3500; app_port = None; workers = 4; peers = []; mode = Mode.Stdio }) }
    ensures serving { Means (codes "--workers=64" ∷ codes "--app-id=--b" ∷ []) (record { app = codes "--b"; resources = None; port = 3500; app_port = None; workers = 64; peers = []; mode = Mode.Serve }) }
    ensures drill { Means (codes "--app-id" ∷ codes "a" ∷ codes "--drill" ∷ codes "05,1000" ∷ []) (record { app = codes "a"; resources = None; port = 3500; app_port = None; workers = 4; peers = []; mode = Mode.Drill 5 1000 }) }
    ensures no_app { (given : WordsRecord) → ¬ Means (codes "--stdio" ∷ []) given }
    ensures twice { (given : WordsRecord) → ¬ Means (codes "--app-id" ∷ codes "a" ∷ codes "--app-id" ∷ codes "b" ∷ []) given }
    ensures two_modes { (given : WordsRecord) → ¬ Means (codes "--app-id" ∷ codes "a" ∷ codes "--stdio" ∷ codes "--check" ∷ []) given }
{}
