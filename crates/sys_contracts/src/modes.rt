//! The modes of a contract.

ghost use Rattle.std.specs.Prelude.{◌≡◌, IfOk, map};
ghost use Rattle.lus_tree.specs.View.{named_view, word_view};
ghost use Rattle.sys_meaning.specs.Part.{implies};
ghost use Rattle.sys_terms.specs.View.{term_view, terms_view};
ghost use Rattle.sys_texts.specs.Views.{mode_view, modes_view, sight_view};
ghost use Rattle.sys_texts.specs.Texts.{formula};
ghost use Rattle.sys_contracts.specs.Items.{ensured, mode_asking, mode_item, required};

use lus_tree::{Named, PlacedName};
use std::alloc::{AllocError, Global};
use sys_parts::formulas::implies;
use sys_parts::joins::all_of;
use sys_terms::Term;
use sys_texts::sight::{Mode, Sight, Way};
use sys_texts::texts::formula;

/// What these expressions say.
fn required(
    alloc: Global,
    sight: &Sight<'_>,
    modes: &[Mode<'_>],
    labelled: &[Named],
) -> Result<Vec<Term>, AllocError>
    ensures { IfOk result (λ v. terms_view v.items ≡ required (sight_view sight.now) (modes_view modes.now)
        (map named_view labelled.now)) }
{
    let mut formulas = Vec::new(alloc);
    for named in labelled {
        let said = formula(alloc, sight, modes, &named.value)?;
        formulas.push(said)?;
    }
    Ok(formulas)
}

/// What an expression says where something is true.
fn under(
    alloc: Global,
    sight: &Sight<'_>,
    modes: &[Mode<'_>],
    asked: &Term,
    named: &Named,
) -> Result<Term, AllocError>
    ensures { IfOk result (λ t. term_view t ≡ implies (term_view asked.now)
        (formula (sight_view sight.now) (modes_view modes.now) (named_view named.now).value)) }
{
    let said = formula(alloc, sight, modes, &named.value)?;
    let condition = asked.copied(alloc)?;
    implies(alloc, condition, said)
}

/// What these expressions say where something is true.
fn ensured(
    alloc: Global,
    sight: &Sight<'_>,
    modes: &[Mode<'_>],
    asked: &Term,
    labelled: &[Named],
) -> Result<Vec<Term>, AllocError>
    ensures { IfOk result (λ v. terms_view v.items ≡ ensured (sight_view sight.now) (modes_view modes.now)
        (term_view asked.now) (map named_view labelled.now)) }
{
    let mut formulas = Vec::new(alloc);
    for named in labelled {
        let said = under(alloc, sight, modes, asked, named)?;
        formulas.push(said)?;
    }
    Ok(formulas)
}

/// A mode that asks this.
fn mode_asking<'a>(
    alloc: Global,
    sight: &Sight<'_>,
    modes: &[Mode<'_>],
    name: &'a PlacedName,
    asked: Term,
    ensures_each: &[Named],
) -> Result<Mode<'a>, AllocError>
    ensures { IfOk result (λ m. mode_view m ≡ mode_asking (sight_view sight.now) (modes_view modes.now)
        (word_view name.now).text (term_view asked) (map named_view ensures_each.now)) }
{
    let ensures_each = ensured(alloc, sight, modes, &asked, ensures_each)?;
    Ok(Mode {
        way: Way::Own,
        name: &name.text,
        asked,
        ensures_each,
    })
}

/// A mode of the contract itself.
pub(crate) fn mode_item<'a>(
    alloc: Global,
    sight: &Sight<'_>,
    modes: &[Mode<'_>],
    name: &'a PlacedName,
    requires_all: &[Named],
    ensures_each: &[Named],
) -> Result<Mode<'a>, AllocError>
    ensures { IfOk result (λ m. mode_view m ≡ mode_item (sight_view sight.now) (modes_view modes.now)
        (word_view name.now).text (map named_view requires_all.now) (map named_view ensures_each.now)) }
{
    let said = required(alloc, sight, modes, requires_all)?;
    let asked = all_of(alloc, &said)?;
    mode_asking(alloc, sight, modes, name, asked, ensures_each)
}
