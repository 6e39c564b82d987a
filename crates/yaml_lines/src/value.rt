use crate::kind::PartKind;

/// A text, or nothing, as an item of a sequence in brackets.
#[derive(Drop)]
pub struct Item {
    pub kind: PartKind,
    pub text: Vec<u8>,
}

/// A value that is written in one piece.
#[derive(Drop)]
pub struct Leaf {
    pub kind: PartKind,
    pub text: Vec<u8>,
    pub items: Vec<Item>,
    /// It is a plain scalar.
    pub plain: bool,
}

/// What a name or a value spells.
#[derive(Drop)]
pub enum Spelled<T> {
    /// Something good.
    Good(T),
    /// What this subset leaves out, with its first byte.
    LeftOut(u8),
    /// Nothing; it may still begin as a value in brackets or braces does.
    Wrong(bool),
}
