use proof_steps::Literal;

/// A clause all of whose literals are one, and that literal; none where the clause is empty.
#[derive(Clone, Copy)]
pub struct Short {
    pub number: u32,
    pub literal: Option<Literal>,
}
