// Rules and what they answer.

use case_text::Lines;
use json_text::read;
use rule_expr::{Expr, RuleErr, Truth, matches, parse};
use side_base::{NoMemory, Text};
use std::alloc::Global;

fn truth_word(truth: Truth) -> &'static str {
    match truth {
        Truth::Yes => "Yes",
        Truth::No => "No",
        Truth::Error => "Error",
    }
}

fn add_refusal(error: RuleErr, lines: &mut Lines) {
    match error {
        RuleErr::Bad { at } => lines.add_number("Bad ", at as u64),
        RuleErr::LeftOut { at } => lines.add_number("LeftOut ", at as u64),
        RuleErr::Deep { at } => lines.add_number("Deep ", at as u64),
        RuleErr::NoMemory => lines.add("no memory"),
    }
}

fn add_truth(alloc: Global, rule: &Expr, event: &[u8], lines: &mut Lines) {
    match read(alloc, event) {
        Ok(doc) => lines.add(truth_word(matches(rule, &doc))),
        Err(_) => lines.add("no event"),
    }
}

// What the rule of this text answers over an event, or why it is refused, as sections of this word tell it.
fn add_answer(alloc: Global, word: &str, event: &[u8], text: &str, lines: &mut Lines) {
    match parse(alloc, text) {
        Ok(rule) => add_truth(alloc, &rule, event, lines),
        Err(error) if word == "told" => lines.add_told(alloc, &error),
        Err(error) => add_refusal(error, lines),
    }
}

// The same of bytes, which are no rule where they are no text.
fn add_of_bytes(alloc: Global, word: &str, event: &[u8], bytes: &[u8], lines: &mut Lines) {
    match str::from_utf8(bytes) {
        Ok(text) => add_answer(alloc, word, event, text, lines),
        Err(_) => lines.add("no text"),
    }
}

/// What the rule of this text answers over an event, or why it is refused; in sections `told` with the text of the refusal.
pub(crate) fn answer(
    alloc: Global,
    word: &str,
    event: &[u8],
    text: &[u8],
) -> Result<Text, NoMemory> {
    let mut lines = Lines::new(alloc);
    match word {
        "rules" | "told" => add_of_bytes(alloc, word, event, text, &mut lines),
        _ => lines.add("no such section"),
    }
    lines.done()
}
