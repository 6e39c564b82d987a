// What the sections of a case say. What finds no memory is left out: then the case differs, and is played again.

use case_text::{Section, name_in, number_in};
use side_base::{Places, Text};
use side_memory::{Sizes, Steps};
use std::alloc::Global;

/// The words of a case that gives none.
const WORDS: &str = "--app-id a --stdio";

/// The numbers behind the first section of this word.
pub(crate) fn places(alloc: Global, sections: &[Section<'_>], word: &str) -> Places {
    let mut places = Places::new(alloc);
    if let Some(numbers) = name_in(sections, word) {
        for number in numbers.split(' ') {
            let _ = places.push(number_in(number));
        }
    }
    places
}

/// How much each read gives at most.
pub(crate) fn sizes(alloc: Global, sections: &[Section<'_>]) -> Sizes {
    let mut sizes = Sizes::new(alloc);
    if let Some(numbers) = name_in(sections, "reads") {
        for number in numbers.split(' ') {
            let _ = sizes.push(number_in(number) as usize);
        }
    }
    sizes
}

/// How far each reading of the clock moves it on, in milliseconds.
pub(crate) fn steps(alloc: Global, sections: &[Section<'_>]) -> Steps {
    let mut steps = Steps::new(alloc);
    if let Some(numbers) = name_in(sections, "steps") {
        for number in numbers.split(' ') {
            let _ = steps.push(u64::from(number_in(number)));
        }
    }
    steps
}

fn add_word(alloc: Global, words: &mut Vec<Text>, word: &str) {
    if let Ok(word) = Text::from_str(alloc, word) {
        let _ = words.push(word);
    }
}

/// The words of the command line.
pub(crate) fn words(alloc: Global, sections: &[Section<'_>]) -> Vec<Text> {
    let mut words = Vec::new(alloc);
    for word in name_in(sections, "words").unwrap_or(WORDS).split(' ') {
        if !word.is_empty() {
            add_word(alloc, &mut words, word);
        }
    }
    words
}
