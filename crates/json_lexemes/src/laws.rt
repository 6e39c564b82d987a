//! What holds of the definitions that the contracts cite, as functions whose contract is the law.
ghost use Rattle.std.specs.Prelude.{◌≡◌, ℕ, List, ◌↔◌};
ghost use Rattle.std.specs.List.{AllByRecursion};
ghost use Rattle.json_lexemes.specs.declared.kind.Kind.{Kind};
ghost use Rattle.json_lexemes.specs.Productions.{Char, IsChar, inside_of, text_of};
ghost use Rattle.json_lexemes.specs.Unescape.{unescaped};
ghost use Rattle.json_lexemes.specs.Words.{HasWord, HasProduced};

/// The words of the grammar are those of the productions of RFC 8259, and the text of a string is the one that its
/// characters spell.
pub fn words_are_those_of_the_productions()
    ensures words { (kind : Kind) (i j : ℕ) (s t : List ℕ) → HasWord kind i s j t ↔ HasProduced kind i s j t }
    ensures texts { (chars : List Char) → AllByRecursion IsChar chars → unescaped (inside_of chars) ≡ text_of chars }
{}
