use crate::node::Node;

/// The number of a part of documents.
#[derive(Clone, Copy, Debug, PartialEq, Eq)]
pub struct Part {
    pub(crate) number: usize,
}

/// The parts of documents, each before those in it.
#[derive(Drop)]
pub struct Preorder {
    pub nodes: Vec<Node>,
}
