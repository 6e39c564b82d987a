// A file as a tree.
ghost use Rattle.std.specs.Prelude.{IfSome};
ghost use Rattle.yaml_subset.specs.Docs.{IsPart};

use case_text::Lines;
use yaml_subset::{Docs, Part, PartKind};

/// How many levels are told: more than a file may have.
const LEVELS: usize = 40;

fn letter(kind: PartKind) -> &'static str {
    match kind {
        PartKind::Scalar => "S",
        PartKind::Sequence => "Q",
        PartKind::Mapping => "M",
        PartKind::Empty => "E",
    }
}

fn words_of(bytes: &[u8]) -> &str {
    str::from_utf8(bytes).unwrap_or("no text")
}

/// A line for a part: a letter for its kind, its line, its name and its text.
pub(crate) fn add_part(docs: &Docs, p: Part, lines: &mut Lines)
    requires { IsPart docs.now p }
{
    lines.add_number(letter(docs.kind(p)), docs.line(p) as u64);
    lines.add(" ");
    lines.add(words_of(docs.name(p)));
    lines.add_line("=", words_of(docs.text(p)));
}

fn add_dots(count: usize, lines: &mut Lines) {
    for _ in 0..count {
        lines.add(".");
    }
}

// The lines of a row, from a part on, each with a dot for each part that it stands in, and of the parts in them.
fn add_row(docs: &Docs, first: Option<Part>, left: usize, lines: &mut Lines)
    requires { IfSome first (IsPart docs.now) }
{
    let mut here = first;
    while let Some(p) = here {
        add_dots(LEVELS.saturating_sub(left), lines);
        add_part(docs, p, lines);
        if left > 0 {
            add_row(docs, docs.first(p), left - 1, lines);
        }
        here = docs.next(p);
    }
}

/// The lines of all parts of a file, each before those in it.
pub(crate) fn add_tree(docs: &Docs, lines: &mut Lines) {
    add_row(docs, docs.root(0), LEVELS, lines);
}
