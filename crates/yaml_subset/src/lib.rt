//! The subset of YAML 1.2 in which resource files are written, read exactly.
#![tactic(auto)]

mod docs;
mod error;
mod grow;
mod left;
mod names;
mod node;
mod nodes;
mod open;
mod parts;
mod path_end;
mod place;
mod preorder;
mod read;
mod reader;
mod refusal;
mod source;
mod take;
mod walk;

pub use docs::Docs;
pub use error::YamlErr;
pub use path_end::At;
pub use preorder::Part;
pub use read::read_docs;
pub use yaml_lines::PartKind;
