//! What an engine works on.

use board_core::Plan;
use sys_terms::System;

/// A system with the plan for it, and the number of the engine.
#[derive(Drop)]
pub(crate) struct Subject {
    pub(crate) system: System,
    pub(crate) plan: Plan,
    pub(crate) engine: u32,
}
