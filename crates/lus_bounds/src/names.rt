//! How many names a declaration has.

ghost use Rattle.std.specs.Prelude.{◌≡◌, ◌+◌, flat_map, length, map};
ghost use Rattle.lus_tree.specs.View.{contract_item_view};
ghost use Rattle.lus_meaning.specs.Scope.{contract_statement_names, declared_in};
ghost use Rattle.lus_bounds.specs.Names.{cut_names};
ghost use Rattle.lus_streams.specs.Owner.{owner_view};

use lus_streams::owner::Owner;
use lus_tree::ContractItem;

/// One past the greatest number of names. Greater ones are cut there.
const NAME_BOUND: usize = 2_001;

/// A number of names, cut.
fn cut(count: usize) -> usize
    ensures { result ≡ cut_names count }
{
    if count < NAME_BOUND {
        count
    } else {
        NAME_BOUND
    }
}

/// A sum, cut.
fn sum(left: usize, right: usize) -> usize
    ensures { result ≡ cut_names (left + right) }
{
    cut(left.saturating_add(right))
}

/// How many names a contract declares: its ghost variables and its constants.
#[tactic(auto, using(crate::proofs::NameCounts::cut_on, crate::proofs::NameCounts::cut_end))]
fn contract_names(items: &[ContractItem]) -> usize
    ensures { result ≡ cut_names (length (flat_map contract_statement_names (map contract_item_view items.now))) }
{
    let mut count = 0;
    for item in items {
        if let ContractItem::Ghost(_, _) | ContractItem::Constant(_) = item {
            count = sum(count, 1);
        }
    }
    count
}

/// How many names a declaration has, cut: inputs, outputs, locals, ghost variables and constants.
pub(crate) fn name_count(part: Owner<'_>) -> usize
    ensures { result ≡ cut_names (length (declared_in (owner_view part.entry))) }
{
    let own = sum(part.constants().len(), part.locals().len());
    let inner = sum(contract_names(part.contract()), own);
    sum(part.inputs().len(), sum(part.outputs().len(), inner))
}
