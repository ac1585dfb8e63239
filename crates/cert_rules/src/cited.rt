//! Citations.

ghost use Rattle.std.specs.Prelude.{◌≡◌, IfOk, map};
ghost use Rattle.proof_steps.specs.View.{proof_view};
ghost use Rattle.sys_terms.specs.View.{terms_view};
ghost use Rattle.cert_rules.specs.View.{cited_view, cites_view, cited_terms, proofs_view};

use proof_steps::Proof;
use std::alloc::{AllocError, Global};
use sys_terms::Term;

/// A lemma entry by its place, counted from 0, with its term.
#[derive(Drop)]
pub struct Cited {
    pub place: u64,
    pub term: Term,
}

impl Cited {
    /// An equal citation.
    pub fn copied(&self, alloc: Global) -> Result<Cited, AllocError>
        ensures { IfOk result (λ c. cited_view c ≡ cited_view self.now) }
    {
        let term = self.term.copied(alloc)?;
        Ok(Cited {
            place: self.place,
            term,
        })
    }
}

pub(crate) fn copied_cites(alloc: Global, cites: &[Cited]) -> Result<Vec<Cited>, AllocError>
    ensures { IfOk result (λ v. cites_view v.items ≡ cites_view cites.now) }
{
    let mut copies = Vec::with_capacity(alloc, cites.len())?;
    for cited in cites {
        copies.push(cited.copied(alloc)?)?;
    }
    Ok(copies)
}

/// The terms of the citations, in order.
pub(crate) fn terms_of(alloc: Global, cites: &[Cited]) -> Result<Vec<Term>, AllocError>
    ensures { IfOk result (λ v. terms_view v.items ≡ cited_terms cites.now) }
{
    let mut terms = Vec::with_capacity(alloc, cites.len())?;
    for cited in cites {
        terms.push(cited.term.copied(alloc)?)?;
    }
    Ok(terms)
}

pub(crate) fn copied_proofs(alloc: Global, proofs: &[Proof]) -> Result<Vec<Proof>, AllocError>
    ensures { IfOk result (λ v. proofs_view v.items ≡ proofs_view proofs.now) }
{
    let mut copies = Vec::with_capacity(alloc, proofs.len())?;
    for proof in proofs {
        copies.push(proof.copied(alloc)?)?;
    }
    Ok(copies)
}
