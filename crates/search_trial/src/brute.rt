//! The slow program: every assignment is tried.

use cnf_maker::Cnf;
use proof_steps::{Clause, Literal};

/// Whether a literal is true, where bit n of the values is the flag n.
fn is_true(literal: Literal, values: u32) -> bool {
    match literal {
        Literal::Flag(number, positive) => number < 32 && (values >> number & 1 == 1) == positive,
        Literal::Atom(_, _) => false,
    }
}

fn meets(clause: &Clause, values: u32) -> bool {
    for literal in clause.literals.as_slice() {
        if is_true(*literal, values) {
            return true;
        }
    }
    false
}

fn meets_all(form: &Cnf, values: u32) -> bool {
    for clause in &form.clauses {
        if !meets(clause, values) {
            return false;
        }
    }
    true
}

/// How many assignments of so many flags give each clause a true literal.
pub fn solutions(form: &Cnf, flags: u32) -> u32 {
    if flags >= 32 {
        return u32::MAX;
    }
    let mut count = 0u32;
    for values in 0..1u32 << flags {
        if meets_all(form, values) {
            count = count.saturating_add(1);
        }
    }
    count
}
