use yaml_lines::PartKind;

/// A part of a file, before what it holds.
#[derive(Drop)]
pub struct Node {
    /// How many parts it stands in.
    pub depth: usize,
    /// The line on which it begins.
    pub line: usize,
    pub kind: PartKind,
    pub name: Vec<u8>,
    pub text: Vec<u8>,
}
