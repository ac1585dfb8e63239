//! Equations among the bounds that matter: variables of a sum whose bounds meet are replaced by the others, before a
//! tableau is asked.
//!
//! Nothing rests on what is found here: proofs and values are judged at the end.

pub mod explaining;
pub mod halt;
pub mod looking;
pub mod sides;
pub mod sums;
pub mod table;
pub mod valuing;
