//! Reads the parts of a program from the tokens of a source: expressions, the items of bodies, and
//! what declarations are made of.
#![tactic(auto)]

mod arguments;
mod built;
mod counts;
mod ends;
mod expression;
mod item;
mod list;
mod look;
mod operator;
mod params;
mod primary;
mod reader;
mod refusal;
mod start;
mod stop;
mod token;
mod word;
mod words;

pub use counts::Counts;
pub use ends::{read_constant, read_ended, read_labelled};
pub use item::{begins_item, read_body, read_left};
pub use list::push;
pub use look::{class_at, expect, is_at, optional_token, out_of_memory, refusal_at};
pub use params::{group, groups, local_group, parameters, sort, when_clock};
pub use reader::read_expr;
pub use words::{identifier, label, names};
