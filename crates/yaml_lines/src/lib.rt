//! A line of a YAML file that has content: which parts stand in it, in which columns, and what its name and its value spell.
//! `yaml_subset` makes documents of such lines.
#![tactic(auto)]

mod blank;
mod block;
mod flow;
mod found;
mod kind;
mod line;
mod piece;
mod plain;
mod quoted;
mod scalar;
mod value;

pub use blank::{has_no_content, is_mark_line};
pub use kind::PartKind;
pub use line::{
    Line, LineCut, Name, Parts, Value, column_of_holder, count_below, cut_of_line, line_from,
};
pub use scalar::Below;
pub use value::{Item, Leaf, Spelled};
