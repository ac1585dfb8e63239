//! A first attempt at an answer. No contract says that it is right: what it gives is judged before it counts.

pub mod bounding;
pub mod columns;
pub mod cutting;
pub mod definitions;
pub mod equations;
pub mod outcome;
pub mod picking;
pub mod plain;
pub mod record;
pub mod splitting;
pub mod turns;
