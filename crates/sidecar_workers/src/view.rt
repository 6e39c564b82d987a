use crate::Reason;

/// What a seat knows of its stop word. It stands in proofs alone: no program makes one.
pub struct View {
    pub is_root: bool,
    /// Whether it has found the word set.
    pub found: bool,
    /// How many looks found it not set.
    pub looks: u64,
    /// Why it has set the word.
    pub ended: Option<Reason>,
    /// How many seats were split off and not met.
    pub out: u64,
    /// How many were so before the last meeting; 1 before the first.
    pub out_before: u64,
    /// Whether a seat that was met had found the word set.
    pub kept_found: bool,
    /// Whether a seat that was met had ended.
    pub kept_ended: bool,
    /// Whether it was met, and is no more.
    pub spent: bool,
}
