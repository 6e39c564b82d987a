use side_base::Text;

/// Why a field of a document was not read. A field is named by the names that lead to it from its document, with dots between.
#[derive(Debug, Drop)]
pub enum FieldErr {
    /// The field isn't there, or it is empty.
    Missing { field: Text },
    /// The field is no such value as is asked for.
    Wrong { field: Text },
    /// There is no memory.
    NoMemory,
}
