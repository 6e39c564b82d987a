// Events, refusals and verdicts as texts.

use case_text::Lines;
use cloud_events::{EventErr, Verdict};
use json_text::{Doc, read};
use side_base::Blob;
use std::alloc::Global;

fn add_refusal(error: &EventErr, lines: &mut Lines) {
    match error {
        EventErr::NotJson { at } => lines.add_number("NotJson ", *at as u64),
        EventErr::Attribute { name } => lines.add_shown("Attribute ", name.bytes()),
        EventErr::BothData => lines.add("BothData"),
        EventErr::BadBase64 { at } => lines.add_number("BadBase64 ", *at as u64),
        EventErr::BadTime => lines.add("BadTime"),
        EventErr::NoMemory => lines.add("no memory"),
    }
}

/// Adds an event, or why there is none.
pub(crate) fn add_event(wrapped: &Result<Blob, EventErr>, lines: &mut Lines) {
    match wrapped {
        Ok(event) => lines.add_shown("", event.bytes()),
        Err(error) => add_refusal(error, lines),
    }
}

fn add_time_of(doc: &Doc<'_>, alloc: Global, lines: &mut Lines) {
    match doc.member(doc.root(), b"time") {
        Some(n) => match doc.text_of(alloc, n) {
            Ok(text) => lines.add(text.as_str()),
            Err(_) => lines.add("no memory"),
        },
        None => lines.add("no time"),
    }
}

/// Adds the time of an event.
pub(crate) fn add_time(alloc: Global, wrapped: &Result<Blob, EventErr>, lines: &mut Lines) {
    match wrapped {
        Ok(event) => match read(alloc, event.bytes()) {
            Ok(doc) => add_time_of(&doc, alloc, lines),
            Err(_) => lines.add("no JSON"),
        },
        Err(error) => add_refusal(error, lines),
    }
}

/// Adds how many bytes an event has, or why there is none.
pub(crate) fn add_len(wrapped: &Result<Blob, EventErr>, lines: &mut Lines) {
    match wrapped {
        Ok(event) => lines.add_number("bytes ", event.len() as u64),
        Err(error) => add_refusal(error, lines),
    }
}

/// Adds a verdict.
pub(crate) fn add_verdict(verdict: Verdict, lines: &mut Lines) {
    match verdict {
        Verdict::Success => lines.add("Success"),
        Verdict::Retry => lines.add("Retry"),
        Verdict::Drop => lines.add("Drop"),
    }
}
