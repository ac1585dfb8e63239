//! The syntax tree of a Lustre program with contracts, and the refusal of a source.
#![tactic(auto)]

mod copies;
mod declaration;
mod expression;
mod lookup;
mod place;
mod refusal;

pub use declaration::{ContractItem, ContractNode, Decl, Definition, Item, Named, Node, Program};
pub use expression::{Expr, Form, Operator};
pub use place::{Param, PlacedName, Pos, Sort};
pub use refusal::{Refusal, What};
