// Subscriptions and aims as texts.

use case_text::Lines;
use ledger_core::{Aim, Aims};
use side_base::{NoMemory, Text};
use std::alloc::Global;
use topic_spec::{Sub, Subs};

fn add_rules(lines: &mut Lines, sub: &Sub) {
    for place in 0..sub.rules.len() {
        lines.add_line("  rule ", sub.rules.at(place).path.as_str());
    }
}

fn add_if_there(lines: &mut Lines, words: &str, text: &Option<Text>) {
    if let Some(text) = text {
        lines.add_line(words, text.as_str());
    }
}

fn add_name(lines: &mut Lines, sub: &Sub) {
    lines.add(sub.pubsub.as_str());
    lines.add_line(" ", sub.topic.as_str());
}

fn add_sub(lines: &mut Lines, sub: &Sub) {
    add_name(lines, sub);
    add_rules(lines, sub);
    add_if_there(lines, "  default ", &sub.default);
    add_if_there(lines, "  dead ", &sub.dead);
}

/// All subscriptions, each with the paths of its rules, its default and its dead-letter topic.
pub(crate) fn subs_text(alloc: Global, subs: &Subs) -> Result<Text, NoMemory> {
    let mut lines = Lines::new(alloc);
    for place in 0..subs.len() {
        add_sub(&mut lines, subs.at(place));
    }
    lines.done()
}

/// The components and topics of all subscriptions.
pub(crate) fn names_text(alloc: Global, subs: &Subs) -> Result<Text, NoMemory> {
    let mut lines = Lines::new(alloc);
    for place in 0..subs.len() {
        add_name(&mut lines, subs.at(place));
    }
    lines.done()
}

fn add_aim(lines: &mut Lines, aim: &Aim) {
    lines.add_number("", aim.sub as u64);
    match &aim.path {
        Some(path) => lines.add_line(" ", path.as_str()),
        None => lines.add_line(" ", "none"),
    }
}

/// The aims: the place of each subscription, and its path.
pub(crate) fn aims_text(alloc: Global, aims: &Aims) -> Result<Text, NoMemory> {
    let mut lines = Lines::new(alloc);
    for place in 0..aims.len() {
        add_aim(&mut lines, aims.at(place));
    }
    lines.done()
}
