//! What modes need.

ghost use Rattle.std.specs.Prelude.{◌≡◌, ◌++◌, [], OnOk, map, option_map, option_to_list, unwrap_or};
ghost use Rattle.std.specs.Map.{lookup};
ghost use Rattle.lus_tree.specs.Tree.{text_of};
ghost use Rattle.lus_tree.specs.View.{word_view};
ghost use Rattle.lus_meaning.specs.Depends.{known_needs};
ghost use Rattle.lus_meaning.specs.Meaning.{mode_key, same_path};
ghost use Rattle.lus_evaluation.specs.Part.{key_of};
ghost use Rattle.evaluation_parts.specs.Needed.{mode_needs_view, modes_needs_view, needs_view, texts};

use crate::need::{Need, copies};
use lus_tree::PlacedName;
use std::alloc::{AllocError, Global};

/// What a mode needs, by its name and the imported contracts on the way to it.
#[derive(Drop)]
pub struct ModeNeeds<'a> {
    pub contracts: Vec<&'a str>,
    pub mode: &'a str,
    pub needs: Vec<Need<'a>>,
}

/// Whether these are the imported contracts on the way to what `::m` or `::C::m` names.
fn is_way(contract: &Option<PlacedName>, contracts: &[&str]) -> bool
    ensures { result ≡ same_path (option_to_list (option_map text_of (option_map word_view contract.now)))
        (texts contracts.now) }
{
    match (contract, contracts) {
        (None, []) => true,
        (Some(word), [name]) => word.text.as_str() == *name,
        _ => false,
    }
}

/// Whether a mode of that name, with these imported contracts on the way to it, is the one that `::m` or `::C::m`
/// names.
pub(crate) fn is_mode(
    contract: &Option<PlacedName>,
    mode: &PlacedName,
    contracts: &[&str],
    name: &str,
) -> bool
    ensures { result ≡ mode_key (key_of (option_map text_of (option_map word_view contract.now))
        (word_view mode.now).text)
        (texts contracts.now, name.now) }
{
    is_way(contract, contracts) && mode.text.as_str() == name
}

/// Whether a mode is the one that `::m` or `::C::m` names.
fn is_named(needs: &ModeNeeds<'_>, contract: &Option<PlacedName>, mode: &PlacedName) -> bool
    ensures { result ≡ mode_key (key_of (option_map text_of (option_map word_view contract.now))
        (word_view mode.now).text)
        (mode_needs_view needs.now).0 }
{
    is_mode(contract, mode, &needs.contracts, needs.mode)
}

/// The mode that `::m` or `::C::m` names.
fn known<'a, 'm>(
    modes: &'m [ModeNeeds<'a>],
    contract: &Option<PlacedName>,
    mode: &PlacedName,
) -> Option<&'m ModeNeeds<'a>>
    ensures { option_map (λ m. needs_view m.now.needs.items) result
        ≡ lookup (mode_key (key_of (option_map text_of (option_map word_view contract.now)) (word_view mode.now).text))
        (modes_needs_view modes.now) }
{
    for known in modes {
        if is_named(known, contract, mode) {
            return Some(known);
        }
    }
    None
}

/// The needs, and behind them equal ones.
fn push_copies<'a>(
    alloc: Global,
    needs: &mut Vec<Need<'a>>,
    more: &[Need<'a>],
) -> Result<(), AllocError>
    ensures { OnOk result (needs_view needs.new.items ≡ needs_view needs.old.items ++ needs_view more.now) }
{
    let mut copies = copies(alloc, more)?;
    needs.append(&mut copies)?;
    Ok(())
}

/// The needs, and behind them those of a mode, where there is one.
fn push_needs_of<'a>(
    alloc: Global,
    needs: &mut Vec<Need<'a>>,
    mode: Option<&ModeNeeds<'a>>,
) -> Result<(), AllocError>
    ensures { OnOk result (needs_view needs.new.items ≡ needs_view needs.old.items
        ++ unwrap_or (option_map (λ m. needs_view m.now.needs.items) mode.entry) []) }
{
    match mode {
        Some(mode) => push_copies(alloc, needs, &mode.needs),
        None => Ok(()),
    }
}

/// The needs, and behind them those of the mode that `::m` or `::C::m` names.
pub(crate) fn push_known<'a>(
    alloc: Global,
    needs: &mut Vec<Need<'a>>,
    modes: &[ModeNeeds<'a>],
    contract: &Option<PlacedName>,
    mode: &PlacedName,
) -> Result<(), AllocError>
    ensures { OnOk result (needs_view needs.new.items ≡ needs_view needs.old.items
        ++ known_needs (modes_needs_view modes.now)
        (key_of (option_map text_of (option_map word_view contract.now)) (word_view mode.now).text)) }
{
    let known = known(modes, contract, mode);
    push_needs_of(alloc, needs, known)
}
