// Which call a section asks for.

use crate::told::{add_event, add_len, add_time, add_verdict};
use case_text::{Lines, long_number_in, push_times};
use cloud_events::{EventErr, Sent, verdict, wrap};
use json_text::read;
use side_base::{Blob, Moment, NoMemory, Text};
use std::alloc::Global;

/// 12:34:56.789 on 29 February 2024.
const NOW: u64 = 1_709_210_096_789;

const TRACEPARENT: &str = "00-4bf92f3577b34da6a3ce929d0e0e4736-00f067aa0ba902b7-01";

fn typed(alloc: Global, words: &str) -> Result<Option<Text>, NoMemory> {
    if words == "none" {
        return Ok(None);
    }
    match Text::from_str(alloc, words) {
        Ok(text) => Ok(Some(text)),
        Err(error) => Err(error),
    }
}

fn sent_of(alloc: Global, content_type: Option<Text>, body: Blob, traced: bool) -> Sent {
    let parent = Text::from_static(alloc, TRACEPARENT);
    let state = Text::from_static(alloc, "vendor=\"1\"");
    Sent {
        content_type,
        body,
        traceparent: if traced { Some(parent) } else { None },
        tracestate: if traced { Some(state) } else { None },
        pubsub: Text::from_static(alloc, "pubsub"),
        topic: Text::from_static(alloc, "orders"),
        app: Text::from_static(alloc, "shop"),
    }
}

// The event of a body at a moment.
fn wrapped_at(alloc: Global, sent: &Sent, ms: u64) -> Result<Blob, EventErr> {
    match Moment::at(ms) {
        Some(now) => wrap(alloc, sent, &Text::from_static(alloc, "A1"), now),
        None => Err(EventErr::NoMemory),
    }
}

// Says where an event that is sent becomes another one.
fn add_again(alloc: Global, event: &Blob, lines: &mut Lines) -> Result<(), NoMemory> {
    let whole = Text::from_static(alloc, "application/cloudevents+json");
    let sent = sent_of(alloc, Some(whole), event.copy()?, false);
    match wrapped_at(alloc, &sent, 0) {
        Ok(again) => {
            if again.bytes() != event.bytes() {
                lines.add(", and another one again");
            }
        }
        Err(_) => lines.add(", and none again"),
    }
    Ok(())
}

fn add_wrapped(
    alloc: Global,
    words: &str,
    body: &[u8],
    traced: bool,
    lines: &mut Lines,
) -> Result<(), NoMemory> {
    let sent = sent_of(
        alloc,
        typed(alloc, words)?,
        Blob::from_bytes(alloc, body)?,
        traced,
    );
    let wrapped = wrapped_at(alloc, &sent, NOW);
    add_event(&wrapped, lines);
    match &wrapped {
        Ok(event) => add_again(alloc, event, lines),
        Err(_) => Ok(()),
    }
}

// The event alone, which is not sent again.
fn add_once(alloc: Global, words: &str, body: &[u8], lines: &mut Lines) -> Result<(), NoMemory> {
    let sent = sent_of(
        alloc,
        typed(alloc, words)?,
        Blob::from_bytes(alloc, body)?,
        false,
    );
    add_event(&wrapped_at(alloc, &sent, NOW), lines);
    Ok(())
}

// The time of an event of a moment.
fn add_moment(alloc: Global, given: &[u8], lines: &mut Lines) -> Result<(), NoMemory> {
    let sent = sent_of(alloc, None, Blob::new(alloc), false);
    let wrapped = wrapped_at(alloc, &sent, long_number_in(given));
    add_time(alloc, &wrapped, lines);
    Ok(())
}

// The length of the event of so many lists within one another, between two texts.
fn add_nested(
    alloc: Global,
    words: &str,
    before: &[u8],
    after: &[u8],
    times: u64,
    lines: &mut Lines,
) -> Result<(), NoMemory> {
    let mut body = Blob::from_bytes(alloc, before)?;
    push_times(&mut body, b"[", times)?;
    push_times(&mut body, b"]", times)?;
    body.push(after)?;
    let sent = sent_of(alloc, typed(alloc, words)?, body, false);
    add_len(&wrapped_at(alloc, &sent, NOW), lines);
    Ok(())
}

// The length of the event of so many members of one name in a row.
fn add_many(alloc: Global, words: &str, times: u64, lines: &mut Lines) -> Result<(), NoMemory> {
    let mut body = Blob::from_bytes(alloc, b"{")?;
    push_times(&mut body, b"\"a\":1,", times)?;
    body.push(b"\"a\":2}")?;
    let sent = sent_of(alloc, typed(alloc, words)?, body, false);
    add_len(&wrapped_at(alloc, &sent, NOW), lines);
    Ok(())
}

// The verdict of a reply with this status, whose body is a JSON text or none.
fn add_reply(alloc: Global, words: &str, body: &[u8], lines: &mut Lines) {
    let status = u16::try_from(long_number_in(words.as_bytes())).unwrap_or(0);
    match read(alloc, body) {
        Ok(doc) => add_verdict(verdict(status, Some(&doc)), lines),
        Err(_) => add_verdict(verdict(status, None), lines),
    }
}

fn add_answer(
    alloc: Global,
    word: &str,
    words: &str,
    given: &[u8],
    lines: &mut Lines,
) -> Result<(), NoMemory> {
    let number = long_number_in(given);
    match word {
        "wrap" => add_wrapped(alloc, words, given, false, lines),
        "traced" => add_wrapped(alloc, words, given, true, lines),
        "once" => add_once(alloc, words, given, lines),
        "moment" => add_moment(alloc, given, lines),
        "nested" => add_nested(alloc, words, b"", b"", number, lines),
        "data-nested" => add_nested(alloc, words, b"{\"data\":", b"}", number, lines),
        "many" => add_many(alloc, words, number, lines),
        "verdict" => {
            add_reply(alloc, words, given, lines);
            Ok(())
        }
        _ => {
            lines.add("no such section");
            Ok(())
        }
    }
}

/// The answer to a line of a section of this word, with what stands behind the word.
pub(crate) fn answer(
    alloc: Global,
    word: &str,
    words: &str,
    given: &[u8],
) -> Result<Text, NoMemory> {
    let mut lines = Lines::new(alloc);
    add_answer(alloc, word, words, given, &mut lines)?;
    lines.done()
}
