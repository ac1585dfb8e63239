//! Whether a system's terms fit its shapes, whether it is mild, and whether an obligation speaks of
//! it. None of these takes memory.

ghost use Rattle.std.specs.Prelude.{◌≡◌, ◌↔◌, IsTrue, true, map, length, nat_lt};
ghost use Rattle.sys_terms.specs.View.{term_view, terms_view, system_view, placed_view, obligation_view};
ghost use Rattle.sys_terms.specs.Fits.{fits_one, all_fit, all_fit_one, all_light, places_fit, is_asked, IsFit, IsMild};

use crate::term::{Obligation, System, Term};
use kind_num::Shape;

/// Whether the term fits and is over one state.
fn fits_one_state(shapes: &[Shape], term: &Term) -> bool
    ensures { result ≡ fits_one shapes.now (term_view term.now) }
{
    term.fits(shapes) && term.is_present()
}

fn all_fit_one_state(shapes: &[Shape], terms: &[Term]) -> bool
    ensures { result ≡ all_fit_one shapes.now (terms_view terms.now) }
{
    for term in terms {
        if !fits_one_state(shapes, term) {
            return false;
        }
    }
    true
}

fn all_fit_shapes(shapes: &[Shape], terms: &[Term]) -> bool
    ensures { result ≡ all_fit shapes.now (terms_view terms.now) }
{
    for term in terms {
        if !term.fits(shapes) {
            return false;
        }
    }
    true
}

fn all_are_light(terms: &[Term]) -> bool
    ensures { result ≡ all_light (terms_view terms.now) }
{
    for term in terms {
        if !term.is_light() {
            return false;
        }
    }
    true
}

impl System {
    /// Whether the terms fit the shapes, and only those of `next` have a variable of the next state.
    pub fn is_fit(&self) -> bool
        ensures { IsTrue result ↔ IsFit (system_view self.now) }
    {
        all_fit_one_state(&self.shapes, &self.first)
            && all_fit_one_state(&self.shapes, &self.here)
            && all_fit_shapes(&self.shapes, &self.next)
            && all_fit_one_state(&self.shapes, &self.legal)
            && all_fit_one_state(&self.shapes, &self.properties)
    }

    /// Whether the terms also have no weight above 2^63.
    pub fn is_mild(&self) -> bool
        ensures { IsTrue result ↔ IsMild (system_view self.now) }
    {
        self.is_fit()
            && all_are_light(&self.first)
            && all_are_light(&self.here)
            && all_are_light(&self.next)
            && all_are_light(&self.legal)
            && all_are_light(&self.properties)
    }
}

fn has_property(system: &System, property: u32) -> bool
    ensures { result ≡ nat_lt property (length (system_view system.now).properties) }
{
    (property as usize) < system.properties.len()
}

/// Whether each term fits, is over one state and stands at one of so many states.
fn all_places_fit(shapes: &[Shape], states: u32, at: &[(u32, Term)]) -> bool
    ensures { result ≡ places_fit shapes.now states (map placed_view at.now) }
{
    for (state, term) in at {
        if !(*state < states && fits_one_state(shapes, term)) {
            return false;
        }
    }
    true
}

impl Obligation {
    /// Whether the obligation speaks of the system: of one of its properties, with terms that fit
    /// and are over one state, and with one state at least.
    pub fn is_asked(&self, system: &System) -> bool
        ensures { result ≡ is_asked (system_view system.now) (obligation_view self.now) }
    {
        match self {
            Obligation::Base { property, .. } | Obligation::Step { property, .. } => {
                has_property(system, *property)
            }
            Obligation::LemmaFirst(lemma) | Obligation::LemmaNext(lemma) => {
                fits_one_state(&system.shapes, lemma)
            }
            Obligation::Implied { lemma, property } => {
                fits_one_state(&system.shapes, lemma) && has_property(system, *property)
            }
            Obligation::Open { states, at, .. } => {
                *states > 0 && all_places_fit(&system.shapes, *states, at)
            }
        }
    }
}
