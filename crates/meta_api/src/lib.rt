//! Metadata of the sidecar (Dapr's metadata API): a book of noted entries, the response that tells it, and health.
#![tactic(auto)]

mod command;
pub mod laws;
mod notes;
mod pairs;
mod response;

pub use command::{NoteErr, NotesCmd, NotesReply, Pair, Pairs, put_command};
pub use notes::Notes;
pub use pairs::{BYTES_LIMIT, NAMES_LIMIT};
pub use response::{
    ComponentNote, ComponentNotes, SubscriptionNote, SubscriptionNotes, health, metadata,
    put_response,
};
