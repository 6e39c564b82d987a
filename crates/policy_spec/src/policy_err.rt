use side_base::Text;

/// Why documents were not read as policies, or policies not joined. `doc` counts the documents of a file, from 0.
#[derive(Debug, Drop)]
pub enum PolicyErr {
    /// A field isn't there, or it is empty.
    Missing { doc: usize, field: Text },
    /// A field is no such value as is asked for.
    Wrong { doc: usize, field: Text },
    /// A target names a policy that its document doesn't have.
    NoSuchPolicy { name: Text },
    /// The target of this name is bound already.
    Repeated { name: Text },
    /// There is no memory.
    NoMemory,
}
