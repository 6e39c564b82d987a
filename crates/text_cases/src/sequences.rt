// Sequences of numbers.

use crate::told::note;
use case_text::{Lines, long_number_in};
use side_base::Sequence;
use std::alloc::Global;

fn add_found(found: Option<u64>, lines: &mut Lines) {
    match found {
        Some(number) => lines.add_number(" ", number),
        None => lines.add(" none"),
    }
}

fn at(items: &Sequence<u64>, place: usize) -> Option<u64> {
    if place < items.len() {
        Some(*items.at(place))
    } else {
        None
    }
}

fn step(items: &mut Sequence<u64>, word: &[u8], lines: &mut Lines) {
    match word {
        [b'+', number @ ..] => {
            let pushed = items.push(long_number_in(number));
            note(lines, pushed);
        }
        [b'@', number @ ..] => add_found(at(items, long_number_in(number) as usize), lines),
        [b'<'] => add_found(items.take_first(), lines),
        [b'#'] => lines.add_number(" ", items.len() as u64),
        [b'?'] => lines.add(if items.is_empty() { " empty" } else { " some" }),
        _ => lines.add(" no such step"),
    }
}

fn add_rest(items: Sequence<u64>, lines: &mut Lines) {
    lines.add(" rest");
    for number in items.into_vec() {
        lines.add_number(" ", number);
    }
}

/// What a sequence answers, from step to step, and what is left of it: `+3` appends a number, `<` takes the first, `@2` asks for one,
/// `#` for the length, and `?` whether it is empty.
pub(crate) fn add_sequence(alloc: Global, given: &[u8], lines: &mut Lines) {
    let mut items = Sequence::from_vec(Vec::new(alloc));
    lines.add("steps:");
    for word in given.split(|byte| *byte == b' ') {
        step(&mut items, word, lines);
    }
    add_rest(items, lines);
}
