use crate::preorder::Part;

/// What stands at the end of a path of names.
#[derive(Clone, Copy, Debug, PartialEq, Eq)]
pub enum At {
    /// A member on the path isn't there, or it is empty.
    Absent,
    /// A part that has no members stands where the path goes on: the one after so many of the names.
    Wrong(usize),
    /// A part that isn't empty.
    Here(Part),
}
