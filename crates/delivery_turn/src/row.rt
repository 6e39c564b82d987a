use side_base::{Blob, Text};

/// A row that was taken: the delivery of a message to a subscription, held under a claim.
#[derive(Debug, Drop)]
pub(crate) struct Row {
    pub no: u64,
    pub sub: u32,
    pub claim: u64,
    pub event: Blob,
    pub path: Text,
}
