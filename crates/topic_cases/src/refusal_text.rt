// Refusals as texts.

use case_text::Lines;
use side_base::{NoMemory, Text};
use std::alloc::Global;
use topic_spec::SubErr;

fn add_field(lines: &mut Lines, words: &str, doc: usize, field: &Text) {
    lines.add_number(words, doc as u64);
    lines.add_line(" ", field.as_str());
}

fn add_refusal(lines: &mut Lines, error: &SubErr) {
    match error {
        SubErr::Missing { doc, field } => add_field(lines, "Missing ", *doc, field),
        SubErr::Wrong { doc, field } => add_field(lines, "Wrong ", *doc, field),
        SubErr::NoMemory => lines.add("no memory\n"),
        SubErr::SelfDead { name } => lines.add_line("SelfDead ", name.as_str()),
        SubErr::TooMany { count } => lines.add_number_line("TooMany ", *count),
        SubErr::Rule { doc, at } => {
            lines.add_number("Rule ", *doc as u64);
            lines.add_number_line(" at ", *at as u64);
        }
    }
}

fn lacks_memory(error: &SubErr) -> bool {
    match error {
        SubErr::NoMemory => true,
        _ => false,
    }
}

/// The refusal as a text: its name, and what it tells.
pub(crate) fn refusal_text(alloc: Global, error: &SubErr) -> Result<Text, NoMemory> {
    if lacks_memory(error) {
        return Err(NoMemory);
    }
    let mut lines = Lines::new(alloc);
    add_refusal(&mut lines, error);
    lines.done()
}
