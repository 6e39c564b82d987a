/// All that a run has of the outside.
#[derive(Debug, Drop)]
pub struct World<S, N, E, F, L, C, O> {
    /// Where requests come from.
    pub source: S,
    /// Where responses go, and what a check says.
    pub sink: N,
    /// Where the line on how the run ended goes, if there is one.
    pub note: E,
    /// Where resource files are read.
    pub files: F,
    /// By which other programs are asked.
    pub link: L,
    /// What tells moments, and waits.
    pub clock: C,
    /// Where the disks of journals and random numbers come from.
    pub outside: O,
}
