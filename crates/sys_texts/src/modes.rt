//! What modes ask.

ghost use Rattle.std.specs.Prelude.{◌≡◌, IfOk, option_map};
ghost use Rattle.lus_tree.specs.Tree.{text_of};
ghost use Rattle.lus_tree.specs.View.{word_view};
ghost use Rattle.sys_terms.specs.View.{term_view};
ghost use Rattle.sys_texts.specs.Sights.{asked_of, is_way};
ghost use Rattle.sys_texts.specs.Views.{modes_view, way_view};

use crate::sight::{Mode, Way};
use lus_tree::PlacedName;
use std::alloc::{AllocError, Global};
use sys_terms::Term;

/// Whether a way is of the contract itself, or of the one of this name.
fn is_way(contract: &Option<PlacedName>, way: Way<'_>) -> bool
    ensures { result ≡ is_way (option_map text_of (option_map word_view contract.now)) (way_view way.entry) }
{
    match (contract, way) {
        (None, Way::Own) => true,
        (Some(contract), Way::Through(name)) => contract.text.as_str() == name,
        (None, Way::Through(_) | Way::Deeper) | (Some(_), Way::Own | Way::Deeper) => false,
    }
}

/// What the first mode of that name asks.
///
/// # Errors
///
/// Want of memory.
pub(crate) fn asked_of(
    alloc: Global,
    modes: &[Mode<'_>],
    contract: &Option<PlacedName>,
    mode: &PlacedName,
) -> Result<Term, AllocError>
    ensures { IfOk result (λ t. term_view t ≡ asked_of (modes_view modes.now)
        (option_map text_of (option_map word_view contract.now)) (word_view mode.now).text) }
{
    for entry in modes {
        if is_way(contract, entry.way) && mode.text.as_str() == entry.name {
            return entry.asked.copied(alloc);
        }
    }
    Ok(Term::Truth(false))
}
