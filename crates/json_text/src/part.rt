// Where a reader stands between two words, and what may come there.
ghost use Rattle.std.specs.Prelude.{◌≡◌};
ghost use Rattle.json_text.specs.Grammar.{is_blank, opens, closes, turns, takes_value, takes_name, bracket_kind};

use crate::spot::Span;
use json_lexemes::Kind;

/// What holds values: an array or an object.
#[derive(Clone, Copy, Debug)]
pub enum Bracket {
    List,
    Map,
}

/// Where in a list, a map or the text itself a reader stands, between two words.
#[derive(Clone, Copy, Debug)]
pub enum Part {
    /// Before the first value or name.
    Start,
    /// After a comma.
    Next,
    /// After a name.
    Named { name: Span },
    /// After the colon behind a name.
    Member { name: Span },
    /// After a value.
    Rest,
}

/// A list or a map that is open: its bracket, and the place of its entry.
#[derive(Clone, Copy, Debug)]
pub struct Opening {
    pub bracket: Bracket,
    pub node: usize,
}

/// The value that a bracket makes.
pub(crate) fn kind_of(bracket: Bracket) -> Kind
    ensures { result ≡ bracket_kind bracket }
{
    match bracket {
        Bracket::List => Kind::List,
        Bracket::Map => Kind::Map,
    }
}

/// A space, a tab, a line feed or a carriage return.
#[inline]
pub(crate) fn is_blank_byte(byte: u8) -> bool
    ensures { result ≡ is_blank byte }
{
    byte == b' ' || byte == b'\t' || byte == b'\n' || byte == b'\r'
}

/// The bracket that a byte opens.
#[inline]
pub(crate) fn bracket_of(byte: u8) -> Option<Bracket>
    ensures { result ≡ opens byte }
{
    match byte {
        b'[' => Some(Bracket::List),
        b'{' => Some(Bracket::Map),
        _ => None,
    }
}

/// Whether a byte closes the list or the map that the reader stands in.
#[inline]
#[tactic(auto, unfolding(crate::specs::Grammar::closes))]
pub(crate) fn is_closed_by(level: Option<Bracket>, here: Part, byte: u8) -> bool
    ensures { result ≡ closes level here byte }
{
    match (level, here) {
        (Some(Bracket::List), Part::Start | Part::Rest) => byte == b']',
        (Some(Bracket::Map), Part::Start | Part::Rest) => byte == b'}',
        _ => false,
    }
}

/// Where the reader stands after a comma or a colon that may come here.
#[inline]
#[tactic(auto, unfolding(crate::specs::Grammar::turns))]
pub(crate) fn turned_by(level: Option<Bracket>, here: Part, byte: u8) -> Option<Part>
    ensures { result ≡ turns level here byte }
{
    match (level, here) {
        (Some(_), Part::Rest) if byte == b',' => Some(Part::Next),
        (Some(Bracket::Map), Part::Named { name }) if byte == b':' => Some(Part::Member { name }),
        _ => None,
    }
}

/// The name of the value that may stand here, if one may.
#[inline]
#[tactic(auto, unfolding(crate::specs::Grammar::takes_value))]
pub(crate) fn value_name(level: Option<Bracket>, here: Part) -> Option<Option<Span>>
    ensures { result ≡ takes_value level here }
{
    match (level, here) {
        (_, Part::Rest) => None,
        (Some(Bracket::Map), Part::Member { name }) => Some(Some(name)),
        (Some(Bracket::Map), _) => None,
        _ => Some(None),
    }
}

/// Whether a name may stand here.
#[inline]
#[tactic(auto, unfolding(crate::specs::Grammar::takes_name))]
pub(crate) fn may_be_named(level: Option<Bracket>, here: Part) -> bool
    ensures { result ≡ takes_name level here }
{
    match (level, here) {
        (Some(Bracket::Map), Part::Start | Part::Next) => true,
        _ => false,
    }
}
