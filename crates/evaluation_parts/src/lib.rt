//! What is evaluated at an instant of a declaration, part by part, in the order in which it would come if nothing
//! had to wait.
#![tactic(auto)]

mod bodies;
mod call_numbers;
mod contracts;
pub mod frame;
mod frames;
mod item;
pub mod laws;
pub mod mode_need;
pub mod mode_needs;
pub mod need;
pub mod needs;
pub mod part;
mod parts;
mod placing;
pub mod setting;
pub mod text;
pub mod turn;
