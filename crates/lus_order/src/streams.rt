//! The streams of a declaration, and a table of their clocks.

ghost use Rattle.std.specs.Prelude.{◌≡◌, ◌∷◌, ◌++◌, [], ℕ, true, IfOk, map};
ghost use Rattle.lus_tree.specs.Tree.{Name, text_of};
ghost use Rattle.lus_tree.specs.View.{contract_item_view, param_view, word_view};
ghost use Rattle.lus_meaning.specs.Depends.{named_in};
ghost use Rattle.lus_meaning.specs.Order.{left_at};
ghost use Rattle.name_table.specs.Names.{add};
ghost use Rattle.lus_meaning.specs.Scene.{ghosts, variables};
ghost use Rattle.lus_meaning.specs.WellMade.{AreDistinct};
ghost use Rattle.lus_streams.specs.Owner.{owner_view};
ghost use Rattle.lus_order.specs.Reads.{clock_seen};
ghost use Rattle.lus_order.specs.Names.{words_view};
ghost use Rattle.lus_order.specs.Sides.{equations_view};
ghost use Rattle.lus_order.specs.Streams.{AreTabled, Widened, names_of, params_view, stream_clock, with_all, with_sides};

use crate::setting::Clocks;
use crate::sides::Side;
use lus_streams::owner::Owner;
use lus_tree::{ContractItem, Param, PlacedName};
use name_table::NameTable;
use std::alloc::{AllocError, Global};

/// The streams, and behind them these.
fn push_params<'a>(params: &mut Vec<&'a Param>, more: &'a [Param]) -> Result<(), AllocError>
    ensures { IfOk result (λ _. params_view params.new.items ≡ params_view params.old.items
        ++ map param_view more.now) }
{
    for param in more {
        params.push(param)?;
    }
    Ok(())
}

/// The streams, and behind them an item's ghost variable, where it is one.
fn push_ghost<'a>(params: &mut Vec<&'a Param>, item: &'a ContractItem) -> Result<(), AllocError>
    ensures { IfOk result (λ _. params_view params.new.items
        ≡ params_view params.old.items ++ ghosts (contract_item_view item.now ∷ [])) }
{
    if let ContractItem::Ghost(param, _) = item {
        params.push(param)?;
    }
    Ok(())
}

/// The streams, and behind them the ghost variables of a contract.
fn push_ghosts<'a>(params: &mut Vec<&'a Param>, items: &'a [ContractItem]) -> Result<(), AllocError>
    ensures { IfOk result (λ _. params_view params.new.items
        ≡ params_view params.old.items ++ ghosts (map contract_item_view items.now)) }
{
    for item in items {
        push_ghost(params, item)?;
    }
    Ok(())
}

/// The streams of a declaration, in their order.
///
/// # Errors
///
/// Want of memory.
pub(crate) fn params_of(alloc: Global, owner: Owner<'_>) -> Result<Vec<&Param>, AllocError>
    ensures { IfOk result (λ v. params_view v.items ≡ variables (owner_view owner.entry)) }
{
    let mut params = Vec::new(alloc);
    push_params(&mut params, owner.inputs())?;
    push_params(&mut params, owner.outputs())?;
    push_params(&mut params, owner.locals())?;
    push_ghosts(&mut params, owner.contract())?;
    Ok(params)
}

/// The names of streams.
fn texts<'a>(alloc: Global, params: &[&'a Param]) -> Result<Vec<&'a str>, AllocError>
    ensures { IfOk result (λ v. map (λ x. x.now) v.items ≡ names_of (params_view params.now)) }
{
    let mut names = Vec::new(alloc);
    for param in params {
        names.push(param.name.text.as_str())?;
    }
    Ok(names)
}

/// The name of a stream's clock.
fn clock_name(param: &Param) -> Option<&str>
    ensures { clock_seen result ≡ stream_clock (param_view param.now) }
{
    match &param.clock {
        Some((_, name)) => Some(name.text.as_str()),
        None => None,
    }
}

/// The names of the clocks of streams.
fn clock_names<'a>(alloc: Global, params: &[&'a Param]) -> Result<Vec<Option<&'a str>>, AllocError>
    ensures { IfOk result (λ v. map clock_seen v.items ≡ map stream_clock (params_view params.now)) }
{
    let mut clocks = Vec::new(alloc);
    for param in params {
        clocks.push(clock_name(*param))?;
    }
    Ok(clocks)
}

/// The clocks of streams, of which no two have one name.
fn clocks_of<'a>(alloc: Global, params: &[&'a Param]) -> Result<Clocks<'a>, AllocError>
    requires { AreDistinct (names_of (params_view params.now)) }
    ensures names { IfOk result (λ s. s.names ≡ names_of (params_view params.now)) }
    ensures clocks { IfOk result (λ s. map clock_seen s.clocks.items
        ≡ map stream_clock (params_view params.now)) }
{
    let texts = texts(alloc, params)?;
    let clocks = clock_names(alloc, params)?;
    match NameTable::distinct(alloc, &texts)? {
        Some(names) => Ok(Clocks { names, clocks }),
        None => unreachable!(),
    }
}

/// The table, and in it a left name, which has no clock where it is new.
#[tactic(auto, using(crate::proofs::Widened::one_wider, crate::proofs::Widened::none_wider))]
fn add_left(alloc: Global, clocks: &mut Clocks<'_>, word: &PlacedName) -> Result<(), AllocError>
    ensures names { IfOk result (λ _. clocks.new.names ≡ add clocks.old.names (word_view word.now).text) }
    ensures clocks { IfOk result (λ _. Widened clocks.old clocks.new) }
{
    if clocks.names.add(alloc, &word.text)? {
        clocks.clocks.push(None)?;
    }
    Ok(())
}

/// The table, and in it these left names.
#[tactic(auto, using(crate::proofs::Widened::not_widened, crate::proofs::Widened::both_widened))]
fn add_lefts(
    alloc: Global,
    clocks: &mut Clocks<'_>,
    words: &[&PlacedName],
) -> Result<(), AllocError>
    ensures names { IfOk result (λ _. clocks.new.names
        ≡ with_all clocks.old.names (map text_of (words_view words.now))) }
    ensures clocks { IfOk result (λ _. Widened clocks.old clocks.new) }
{
    for word in words {
        add_left(alloc, clocks, *word)?;
    }
    Ok(())
}

/// The table, and in it the left names of these equations.
#[tactic(auto, using(crate::proofs::Widened::not_widened, crate::proofs::Widened::both_widened))]
fn add_sides(alloc: Global, clocks: &mut Clocks<'_>, sides: &[Side<'_>]) -> Result<(), AllocError>
    ensures names { IfOk result (λ _. clocks.new.names ≡ with_sides clocks.old.names (equations_view sides.now)) }
    ensures clocks { IfOk result (λ _. Widened clocks.old clocks.new) }
{
    for side in sides {
        add_lefts(alloc, clocks, &side.words)?;
    }
    Ok(())
}

/// The clocks of the streams of a declaration, of which no two have one name, with the left names of its equations.
///
/// # Errors
///
/// Want of memory.
#[tactic(auto, using(crate::proofs::Widened::table_widened, crate::proofs::Widened::sides_there, crate::proofs::Widened::sides_distinct))]
pub(crate) fn table_of<'a>(
    alloc: Global,
    params: &[&'a Param],
    sides: &[Side<'_>],
) -> Result<Clocks<'a>, AllocError>
    requires { AreDistinct (names_of (params_view params.now)) }
    ensures tabled { IfOk result (λ s. AreTabled (params_view params.now) s) }
    ensures distinct { IfOk result (λ s. AreDistinct s.names) }
    ensures lefts { IfOk result (λ s. (k : ℕ) (x : Name) → named_in x (left_at (equations_view sides.now) k) ≡ true
        → named_in x s.names ≡ true) }
{
    let mut clocks = clocks_of(alloc, params)?;
    add_sides(alloc, &mut clocks, sides)?;
    Ok(clocks)
}
