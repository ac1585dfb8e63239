//! Whether the atoms of a form are sums over its numbers, as a tableau asks it.

ghost use Rattle.std.specs.Prelude.{◌≡◌, true, All, map};
ghost use Rattle.std.specs.List.Sorted.{IsStrictlyIncreasing};
ghost use Rattle.proof_steps.specs.View.{atom_view};
ghost use Rattle.cnf_maker.specs.Plain.{IsPlain, IsPlainAtom, IsTermOf};
ghost use Rattle.cnf_maker.specs.View.{form_view};

use cnf_maker::Cnf;
use kind_num::Shape;
use proof_steps::Atom;

fn is_term(shapes: &[Shape], term: (u32, i128)) -> bool
    ensures { result ≡ true → IsTermOf shapes.now term }
{
    match shapes.get(term.0 as usize) {
        Some(Shape::Number) => term.1 != 0,
        _ => false,
    }
}

fn are_terms(shapes: &[Shape], terms: &[(u32, i128)]) -> bool
    ensures { result ≡ true → All (IsTermOf shapes.now) terms.now }
{
    for term in terms {
        if !is_term(shapes, *term) {
            return false;
        }
    }
    true
}

fn are_in_order(terms: &[(u32, i128)]) -> bool
    ensures { result ≡ true → IsStrictlyIncreasing (map (λ t. t.0) terms.now) }
{
    for i in 1..terms.len() {
        if terms[i - 1].0 >= terms[i].0 {
            return false;
        }
    }
    true
}

fn is_plain_atom(shapes: &[Shape], atom: &Atom) -> bool
    ensures { result ≡ true → IsPlainAtom shapes.now (atom_view atom.now) }
{
    let terms = atom.terms.as_slice();
    !terms.is_empty() && are_in_order(terms) && are_terms(shapes, terms)
}

fn are_plain(shapes: &[Shape], atoms: &[Atom]) -> bool
    ensures { result ≡ true → All (IsPlainAtom shapes.now) (map atom_view atoms.now) }
{
    for atom in atoms {
        if !is_plain_atom(shapes, atom) {
            return false;
        }
    }
    true
}

/// Whether each atom is a sum of numbers of the form, each once and in order, with a coefficient other than 0.
pub fn is_plain(cnf: &Cnf) -> bool
    ensures { result ≡ true → IsPlain (form_view cnf.now) }
{
    are_plain(&cnf.shapes, &cnf.atoms)
}
