//! The faults of an item of a body.

ghost use Rattle.std.specs.Prelude.{◌++◌, List};
ghost use Rattle.lus_tree.specs.Reason.{Refused};
ghost use Rattle.lus_tree.specs.View.{item_view};
ghost use Rattle.lus_meaning.specs.NameFaults.{statement_faults};
ghost use Rattle.lus_scopes.specs.Least.{IsLeast, least_view};
ghost use Rattle.lus_scopes.specs.Scopes.{scope_view};

use crate::equation::equation;
use crate::expression::flag;
use crate::least::Least;
use crate::scope::Scope;
use lus_tree::Item;

/// Notes the faults of an item.
#[tactic(auto, using(crate::proofs::Nothing::nothing_behind))]
pub(crate) fn statement(scope: &Scope<'_>, least: &mut Least, item: &Item)
    ensures { (fs : List Refused) → IsLeast (least_view least.old) fs
        → IsLeast (least_view least.new) (fs ++ statement_faults (scope_view scope.now) (item_view item.now)) }
{
    match item {
        Item::Equation(words, e) => equation(scope, least, words, e),
        Item::Assert(e) => {
            flag(scope, least, e);
        }
        Item::Property(property) => flag(scope, least, &property.value),
        Item::Main(_) => {}
    }
}
