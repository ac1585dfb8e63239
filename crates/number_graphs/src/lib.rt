//! Finite directed graphs of numbers: what a number leads to, which lead to themselves, and least orders.
#![tactic(auto)]

pub mod circles;
pub mod graph;
pub mod least_order;
pub mod order_from;
pub mod reach;
