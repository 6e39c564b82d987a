use side_base::Text;

/// Why documents were not read as components, or components not joined. `doc` counts the documents of a file, from 0.
#[derive(Debug, Drop)]
pub enum SpecErr {
    /// A field isn't there, or it is empty.
    Missing { doc: usize, field: Text },
    /// A field is no such value as is asked for.
    Wrong { doc: usize, field: Text },
    /// The component of this name has an earlier one's name, or a journal whose file an earlier one's is.
    Repeated { name: Text },
    /// A setting of the component of this name is kept elsewhere, which isn't supported.
    SecretRef { name: Text },
    /// The component of this name is of no type that is known.
    UnknownType { name: Text },
    /// There is no memory.
    NoMemory,
    /// There are more than 256 components: so many.
    TooMany { count: u64 },
}
