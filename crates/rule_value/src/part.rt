// The parts that a rule's text is made of.

/// How two values are compared.
#[derive(Clone, Copy, Debug, PartialEq, Eq)]
pub enum Relation {
    /// `==`
    Equal,
    /// `!=`
    Unlike,
    /// `<=`
    AtMost,
    /// `<`
    Below,
    /// `>=`
    AtLeast,
    /// `>`
    Above,
}

/// The calls that stand behind a dot.
#[derive(Clone, Copy, Debug, PartialEq, Eq)]
pub enum Call {
    /// `startsWith`
    StartsWith,
    /// `endsWith`
    EndsWith,
    /// `contains`
    Contains,
}

/// What a name means where it isn't the name of a member.
#[derive(Clone, Copy, Debug, PartialEq, Eq)]
pub enum Word {
    /// `event`
    Event,
    /// `true`
    True,
    /// `false`
    False,
    /// `null`
    Null,
    /// `has`
    Has,
    /// `int`
    Int,
    /// `in`
    In,
    /// One of the calls.
    Call { call: Call },
    /// Any other name.
    Other,
}

/// A whole number by its sign and its size; 0 is not below 0.
#[derive(Clone, Copy, Debug, PartialEq, Eq)]
pub struct Whole {
    /// Whether it is below 0.
    pub below: bool,
    /// How far it is from 0.
    pub size: u64,
}

/// What stands at a place of a rule's text.
#[derive(Clone, Copy, Debug, PartialEq, Eq)]
pub enum Part {
    /// `(`
    Open,
    /// `)`
    Close,
    /// `[`
    OpenList,
    /// `]`
    CloseList,
    /// `,`
    Comma,
    /// `.`
    Dot,
    /// `!`
    Bang,
    /// `&&`
    Both,
    /// `||`
    Either,
    /// A comparison.
    Test { relation: Relation },
    /// A name.
    Named { word: Word },
    /// A quote, with which a text begins.
    Quote,
    /// A number within 64 bits.
    Number { whole: Whole },
    /// A number outside of 64 bits.
    Huge,
    /// The end of the rule.
    End,
    /// A byte with which no part begins.
    Stray { byte: u8 },
}

/// What stands at a place, and how many bytes of it; of a text the quote alone.
#[derive(Clone, Copy, Debug, PartialEq, Eq)]
pub struct Seen {
    /// The part.
    pub part: Part,
    /// Its bytes.
    pub len: usize,
}
