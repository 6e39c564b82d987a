//! Components: what the documents of resource files say of stores, brokers and bindings.
#![tactic(auto)]

mod clash;
mod component;
mod component_list;
mod document;
mod field;
mod field_err;
mod load;
mod parse;
mod schedule;
mod setting;
mod spec_err;
mod url;

pub use component::{Component, ComponentKind};
pub use component_list::Components;
pub use document::head;
pub use field::{asked, field_of, part_text, said};
pub use field_err::FieldErr;
pub use load::{components, join};
pub use schedule::{a_schedule_says_its_period, period_of};
pub use setting::{Setting, Settings};
pub use spec_err::SpecErr;
pub use url::{Url, url_of};
