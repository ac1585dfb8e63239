//! The faults of the clocks, constants and items of a body.

ghost use Rattle.std.specs.Prelude.{◌≡◌, map, flat_map};
ghost use Rattle.lus_tree.specs.View.{item_view, param_view};
ghost use Rattle.lus_meaning.specs.ExpressionFaults.{used_as_clock};
ghost use Rattle.lus_meaning.specs.NameFaults.{clock_words, statement_faults};
ghost use Rattle.lus_scopes.specs.Least.{least_view, noted_all};
ghost use Rattle.lus_scopes.specs.Notes.{Notes};
ghost use Rattle.lus_scopes.specs.Scopes.{scope_view};

use crate::least::Least;
use crate::notes::used_as_clock;
use crate::scope::Scope;
use crate::statement::statement;
use lus_tree::{Item, Param};

/// Notes the clock of a stream, where it is no clock.
fn clock(scope: &Scope<'_>, least: &mut Least, param: &Param)
    ensures { least_view least.new ≡ noted_all (least_view least.old)
        (flat_map (used_as_clock (scope_view scope.now)) (clock_words (param_view param.now))) }
{
    if let Some((_, word)) = &param.clock {
        used_as_clock(scope, least, word);
    }
}

/// Notes the clocks of streams that are no clocks.
#[tactic(auto, using(crate::proofs::Leasts::noted_append))]
pub fn clocks(scope: &Scope<'_>, least: &mut Least, params: &[Param])
    ensures { least_view least.new ≡ noted_all (least_view least.old)
        (flat_map (used_as_clock (scope_view scope.now)) (flat_map clock_words (map param_view params.now))) }
{
    for param in params {
        clock(scope, least, param);
    }
}

/// Notes the faults of the items of a body.
pub fn statements(scope: &Scope<'_>, least: &mut Least, items: &[Item])
    ensures { Notes (least_view least.old) (least_view least.new)
        (flat_map (statement_faults (scope_view scope.now)) (map item_view items.now)) }
{
    for item in items {
        statement(scope, least, item);
    }
}
