use side_base::Blob;

/// A call of a disk in memory that changed what a read gives, or what a crash may leave.
#[derive(Debug, Drop)]
pub(crate) enum Note {
    /// A write that succeeded.
    Written { at: usize, piece: Blob },
    /// A write that failed. A read gives what it gave before.
    Lost { at: usize, piece: Blob },
    /// A sync that succeeded.
    Synced,
}
