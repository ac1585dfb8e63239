//! Whether nothing compares numbers. None of these takes memory.

ghost use Rattle.std.specs.Prelude.{◌≡◌, map};
ghost use Rattle.sys_terms.specs.View.{term_view, terms_view, system_view, placed_view, obligation_view};
ghost use Rattle.sys_terms.specs.Boolean.{is_boolean};
ghost use Rattle.smt_solver.specs.Boolean.{all_boolean, is_boolean_machine, all_boolean_at, is_boolean_task};

use sys_terms::{Obligation, System, Term};

/// Whether the term compares no numbers.
pub fn is_boolean_term(term: &Term) -> bool
    ensures { result ≡ is_boolean (term_view term.now) }
{
    match term {
        Term::Truth(_) | Term::Flag(_) => true,
        Term::Not(a) => is_boolean_term(a),
        Term::And(a, b) | Term::Same(a, b) => is_boolean_term(a) && is_boolean_term(b),
        Term::Choose(c, a, b) => is_boolean_term(c) && is_boolean_term(a) && is_boolean_term(b),
        Term::AtMost(_, _) | Term::Equal(_, _) => false,
    }
}

fn all_are_boolean(terms: &[Term]) -> bool
    ensures { result ≡ all_boolean (terms_view terms.now) }
{
    for term in terms {
        if !is_boolean_term(term) {
            return false;
        }
    }
    true
}

fn all_placed_are_boolean(at: &[(u32, Term)]) -> bool
    ensures { result ≡ all_boolean_at (map placed_view at.now) }
{
    for (_, term) in at {
        if !is_boolean_term(term) {
            return false;
        }
    }
    true
}

/// Whether no term of the system compares numbers.
pub fn is_boolean_system(system: &System) -> bool
    ensures { result ≡ is_boolean_machine (system_view system.now) }
{
    all_are_boolean(&system.first)
        && all_are_boolean(&system.here)
        && all_are_boolean(&system.next)
        && all_are_boolean(&system.legal)
        && all_are_boolean(&system.properties)
}

/// Whether no term that the obligation asks about compares numbers.
pub fn is_boolean_obligation(what: &Obligation) -> bool
    ensures { result ≡ is_boolean_task (obligation_view what.now) }
{
    match what {
        Obligation::Base { .. } | Obligation::Step { .. } => true,
        Obligation::LemmaFirst(lemma) | Obligation::LemmaNext(lemma) => is_boolean_term(lemma),
        Obligation::Implied { lemma, .. } => is_boolean_term(lemma),
        Obligation::Open { at, .. } => all_placed_are_boolean(at),
    }
}
