ghost use Rattle.std.specs.Prelude.{◌≤◌, length};

/// The lines that are still to come: from place `at` on. `starts` says that a document is to begin, and `least` is the
/// column of the part that a value would stand in.
#[derive(Drop)]
pub struct Source<'a> {
    pub lines: &'a [&'a [u8]],
    pub at: usize,
    pub starts: bool,
    pub least: usize,
    ghost inside: { at ≤ length lines.now },
}
