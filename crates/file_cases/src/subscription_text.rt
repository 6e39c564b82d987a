// Subscriptions as texts: a line for each, and below it its rules' paths and its default.

use case_text::Lines;
use side_base::{NoMemory, Text};
use std::alloc::Global;
use topic_spec::{Rules, Sub, Subs};

fn add_rules(lines: &mut Lines, rules: &Rules) {
    for place in 0..rules.len() {
        lines.add_line("  rule to ", rules.at(place).path.as_str());
    }
}

fn add_optional(lines: &mut Lines, words: &str, text: &Option<Text>) {
    if let Some(text) = text {
        lines.add_line(words, text.as_str());
    }
}

fn add_subscription(lines: &mut Lines, sub: &Sub) {
    lines.add(sub.pubsub.as_str());
    lines.add_line(" ", sub.topic.as_str());
    add_rules(lines, &sub.rules);
    add_optional(lines, "  default ", &sub.default);
    add_optional(lines, "  dead letters to ", &sub.dead);
}

/// The subscriptions.
pub(crate) fn subscriptions_text(alloc: Global, subs: &Subs) -> Result<Text, NoMemory> {
    let mut lines = Lines::new(alloc);
    for place in 0..subs.len() {
        add_subscription(&mut lines, subs.at(place));
    }
    lines.done()
}
