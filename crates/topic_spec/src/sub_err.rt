use side_base::Text;

/// Why documents, or an app's list, were not read as subscriptions, or subscriptions not joined. `doc` counts the documents of a
/// file, or the items of the list, from 0. A field is named by the names that lead to it from its document or item, with dots
/// between.
#[derive(Debug, Drop)]
pub enum SubErr {
    /// A field isn't there, or it is empty.
    Missing { doc: usize, field: Text },
    /// A field is no such value as is asked for.
    Wrong { doc: usize, field: Text },
    /// There is no memory.
    NoMemory,
    /// The dead-letter topic is the topic itself: in the document of this name, or, in an app's list, of the topic of this name.
    SelfDead { name: Text },
    /// There are more than 256 subscriptions: so many.
    TooMany { count: u64 },
    /// A rule isn't read: the first place at which its text leaves the grammar.
    Rule { doc: usize, at: usize },
}
