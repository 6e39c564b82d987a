use crate::Entry;
use std::collections::LinkedList;

/// How far a seat is with its call.
pub enum Stage<C, R> {
    /// It makes no call.
    Idle,
    /// It read that the cell has tickets left.
    Glanced,
    /// It has this ticket, and waits.
    Waiting(u64),
    /// Its ticket is served: the object is its own.
    InTurn(u64),
    /// Its step is decided, and not in the history yet.
    Decided(u64, Entry<C, R>),
    /// It was met, and is no more.
    Spent,
}

/// What a seat knows of its cell. It stands in proofs alone: no program makes one.
pub struct View<O, C, R> {
    pub first: Option<O>,
    pub number: u64,
    pub is_root: bool,
    pub seen: LinkedList<Entry<C, R>>,
    pub mine: LinkedList<Entry<C, R>>,
    /// What a seat that was joined had seen, until the meeting ends.
    pub kept: LinkedList<Entry<C, R>>,
    pub count: Option<u64>,
    pub made: u64,
    pub out: u64,
    pub met: LinkedList<(u64, LinkedList<Entry<C, R>>)>,
    pub stage: Stage<C, R>,
}
