// Reading lines in one pass, with a stack of what is open.
use crate::names::Names;
use crate::node::Node;
use crate::open::{Open, Tip};

/// A reader between two lines: the parts so far, those that are open, with the names of the rows of each, and what the last
/// row has.
#[derive(Drop)]
pub struct Reader {
    pub nodes: Vec<Node>,
    pub opened: Vec<Open>,
    pub names: Vec<Names>,
    pub tip: Tip,
}
