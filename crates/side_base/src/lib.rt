//! Texts, byte strings, moments and messages: the values that every other crate passes on.
#![tactic(auto)]

mod blob;
mod decimal;
mod duration;
mod field;
mod message;
mod method;
mod moment;
mod sequence;
mod shared;
mod text;

pub use blob::{Blob, NotText};
pub use decimal::{number_of, split_digits};
pub use duration::{DURATION_LIMIT, DurationErr, duration_ms};
pub use field::{first_item, first_named, first_value, has_item, is_same_word, trimmed};
pub use message::{Field, Fields, LinkRequest, Names, Request, Requests, Response};
pub use method::Method;
pub use moment::{MOMENT_LIMIT, Moment};
pub use sequence::{Places, Sequence};
pub use text::{Text, TextErr};

/// The allocator had no room. A call that answers it has changed nothing, unless it says otherwise.
pub use std::alloc::AllocError as NoMemory;
