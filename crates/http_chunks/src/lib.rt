//! Content in chunks (RFC 9112, section 7.1), of a request or a reply.
//!
//! - `content` joins chunks as their bytes come.
//!   - `chunks` reads the line of the next chunk, or the end of the chunks.
//!   - `line_place` tells how far a line was read that is not whole, `trailer_place` the same behind the last one, where `fields` tells what a field
//!     begins with.
//!   - `chunk_line` reads a chunk's line, and `trailers` what follows the last one.
//!   - `front` tells what follows a front.
#![tactic(auto)]

mod chunk_line;
mod chunks;
mod content;
mod fields;
mod front;
mod line_place;
mod trailer_place;
mod trailers;

pub use content::{Body, ContentStep, read_content, take_due};
pub use fields::{FieldPart, are_of_field, field_part};
pub use line_place::{LinePart, LinePlace, start_of_line};
pub use trailers::{TrailersRead, read_section};

/// The most bytes of a chunk line, and of trailers.
pub const LINE_LIMIT: usize = 16_384;

/// The most bytes of a content.
pub const BODY_LIMIT: u64 = 4_194_304;
