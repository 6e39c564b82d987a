// A book of metadata as a case has it: what is noted, and what is told.
ghost use Rattle.turn_cell.specs.Sitting.{IsSeatOf};

use crate::given::{number, repeated, text};
use crate::response_text::told;
use case_text::{Section, first_word, name_in};
use itoa::Buffer;
use meta_api::{
    ComponentNote, ComponentNotes, NoteErr, Notes, NotesCmd, NotesReply, Pairs, SubscriptionNote,
    SubscriptionNotes, metadata, put_command, put_response,
};
use side_base::{Blob, Text};
use std::alloc::Global;
use std::sync::Wait;
use turn_cell::{Seat, TurnCell};

// The response to a note, as a text.
fn reply_text(alloc: Global, reply: &NotesReply) -> Text {
    match reply {
        NotesReply::Noted | NotesReply::Full { .. } => told(alloc, put_response(alloc, reply)),
        NotesReply::Listed { .. } => Text::from_static(alloc, "listed\n"),
        NotesReply::NoMemory => Text::from_static(alloc, "no memory\n"),
    }
}

fn put_text<W: Wait>(
    rt: &W,
    alloc: Global,
    cell: &TurnCell<Notes>,
    seat: &mut Seat<Notes>,
    cmd: &NotesCmd,
) -> Text
    requires { IsSeatOf cell.now seat.old }
    ensures { IsSeatOf cell.now seat.new }
{
    match cell.call(rt, seat, cmd) {
        Ok(reply) => reply_text(alloc, &reply),
        Err(_) => Text::from_static(alloc, "exhausted\n"),
    }
}

// Notes a value for a name, and tells the response.
fn note<W: Wait>(
    rt: &W,
    alloc: Global,
    cell: &TurnCell<Notes>,
    seat: &mut Seat<Notes>,
    name: &str,
    value: &Blob,
) -> Text
    requires { IsSeatOf cell.now seat.old }
    ensures { IsSeatOf cell.now seat.new }
{
    match put_command(alloc, &text(alloc, name), value.bytes()) {
        Ok(cmd) => put_text(rt, alloc, cell, seat, &cmd),
        Err(NoteErr::NotText) => Text::from_static(alloc, "not text\n"),
        Err(NoteErr::NoMemory) => Text::from_static(alloc, "no memory\n"),
    }
}

// Notes a value for each number below `count`, and tells the last response.
fn note_numbers<W: Wait>(
    rt: &W,
    alloc: Global,
    cell: &TurnCell<Notes>,
    seat: &mut Seat<Notes>,
    count: u64,
    value: &Blob,
) -> Text
    requires { IsSeatOf cell.now seat.old }
    ensures { IsSeatOf cell.now seat.new }
{
    let mut last = Text::new(alloc);
    for each in 0..count {
        let mut buffer = Buffer::new();
        last = note(rt, alloc, cell, seat, buffer.format(each), value);
    }
    last
}

// Notes what a section says, a text that stands so often, for a name or for each number below one; `None` where it says nothing of
// the kind.
fn note_section<W: Wait>(
    rt: &W,
    alloc: Global,
    cell: &TurnCell<Notes>,
    seat: &mut Seat<Notes>,
    section: &Section<'_>,
) -> Option<Text>
    requires { IsSeatOf cell.now seat.old }
    ensures { IsSeatOf cell.now seat.new }
{
    let (name, times) = first_word(section.name);
    let value = repeated(alloc, section, times);
    match section.word {
        "note" => Some(note(rt, alloc, cell, seat, name, &value)),
        "notes" => {
            let count = number(name);
            Some(note_numbers(rt, alloc, cell, seat, count, &value))
        }
        _ => None,
    }
}

// Notes all that a case says, and tells the last response.
fn note_all<W: Wait>(
    rt: &W,
    alloc: Global,
    cell: &TurnCell<Notes>,
    seat: &mut Seat<Notes>,
    sections: &[Section<'_>],
) -> Text
    requires { IsSeatOf cell.now seat.old }
    ensures { IsSeatOf cell.now seat.new }
{
    let mut last = Text::from_static(alloc, "nothing is noted\n");
    for section in sections {
        if let Some(told) = note_section(rt, alloc, cell, seat, section) {
            last = told;
        }
    }
    last
}

fn list<W: Wait>(rt: &W, alloc: Global, cell: &TurnCell<Notes>, seat: &mut Seat<Notes>) -> Pairs
    requires { IsSeatOf cell.now seat.old }
{
    match cell.call(rt, seat, &NotesCmd::List) {
        Ok(NotesReply::Listed { pairs }) => pairs,
        _ => Pairs::new(alloc),
    }
}

fn add_component(alloc: Global, components: &mut ComponentNotes, words: &str) {
    let (name, words) = first_word(words);
    let (kind, version) = first_word(words);
    let _ = components.push(ComponentNote {
        name: text(alloc, name),
        kind: text(alloc, kind),
        version: text(alloc, version),
    });
}

fn components(alloc: Global, sections: &[Section<'_>]) -> ComponentNotes {
    let mut components = ComponentNotes::new(alloc);
    for section in sections {
        if section.word == "component" {
            add_component(alloc, &mut components, section.name);
        }
    }
    components
}

fn dead_in(alloc: Global, word: &str) -> Option<Text> {
    if word.is_empty() {
        None
    } else {
        Some(text(alloc, word))
    }
}

fn add_subscription(alloc: Global, subscriptions: &mut SubscriptionNotes, words: &str) {
    let (pubsub, words) = first_word(words);
    let (topic, dead) = first_word(words);
    let _ = subscriptions.push(SubscriptionNote {
        pubsub: text(alloc, pubsub),
        topic: text(alloc, topic),
        dead: dead_in(alloc, dead),
    });
}

fn subscriptions(alloc: Global, sections: &[Section<'_>]) -> SubscriptionNotes {
    let mut subscriptions = SubscriptionNotes::new(alloc);
    for section in sections {
        if section.word == "subscription" {
            add_subscription(alloc, &mut subscriptions, section.name);
        }
    }
    subscriptions
}

// The metadata of a case, with these notes, as a text.
fn metadata_text(alloc: Global, sections: &[Section<'_>], pairs: &Pairs) -> Text {
    let app = text(alloc, name_in(sections, "app").unwrap_or("a"));
    let components = components(alloc, sections);
    let subscriptions = subscriptions(alloc, sections);
    told(
        alloc,
        metadata(alloc, &app, &components, &subscriptions, pairs),
    )
}

/// What a case notes, in a book of its own: the last response, or the metadata.
pub(crate) fn noted<W: Wait>(
    rt: &W,
    alloc: Global,
    sections: &[Section<'_>],
    is_last_wanted: bool,
) -> Text {
    match TurnCell::start(alloc, Notes::new(alloc)) {
        Ok((cell, mut seat)) => {
            let last = note_all(rt, alloc, &cell, &mut seat, sections);
            if is_last_wanted {
                return last;
            }
            let pairs = list(rt, alloc, &cell, &mut seat);
            metadata_text(alloc, sections, &pairs)
        }
        Err(_) => Text::from_static(alloc, "no memory\n"),
    }
}
