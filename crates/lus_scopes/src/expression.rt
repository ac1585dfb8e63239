//! The faults of expressions by what they are.

ghost use Rattle.std.specs.Prelude.{◌≡◌, ◌++◌, List};
ghost use Rattle.lus_tree.specs.Reason.{Refused};
ghost use Rattle.lus_tree.specs.View.{expr_view};
ghost use Rattle.lus_meaning.specs.Occurrences.{Standing};
ghost use Rattle.lus_meaning.specs.ExpressionFaults.{definition_faults, expression_faults, flag_faults};
ghost use Rattle.lus_scopes.specs.Least.{IsLeast, least_view};
ghost use Rattle.lus_scopes.specs.Parts.{IsPart};
ghost use Rattle.lus_scopes.specs.Scopes.{scope_view};

use crate::found::Part;
use crate::least::Least;
use crate::notes::{differ, needs_sort};
use crate::part::{Manner, part};
use crate::scope::Scope;
use lus_tree::{Expr, Sort, What};

/// Notes the faults of an expression, and gives what is known of it.
pub(crate) fn expression(scope: &Scope<'_>, least: &mut Least, whole_side: bool, e: &Expr) -> Part
    ensures part { IsPart (scope_view scope.now) (expr_view e.now) result }
    ensures least { (fs : List Refused) (t : Standing) → t.whole_side ≡ whole_side → IsLeast (least_view least.old) fs
        → IsLeast (least_view least.new) (fs ++ expression_faults (scope_view scope.now) t (expr_view e.now)) }
{
    let manner = Manner {
        whole_side,
        constant: false,
    };
    part(scope, least, manner, e)
}

/// Notes the faults of an expression of truth values.
pub(crate) fn flag(scope: &Scope<'_>, least: &mut Least, e: &Expr)
    ensures { (fs : List Refused) → IsLeast (least_view least.old) fs
        → IsLeast (least_view least.new) (fs ++ flag_faults (scope_view scope.now) (expr_view e.now)) }
{
    let manner = Manner {
        whole_side: false,
        constant: false,
    };
    let found = part(scope, least, manner, e);
    needs_sort(least, Sort::Bool, &found);
}

/// Notes the faults of a constant's definition, with the type that is written where there is one,
/// and gives what is known of its value.
pub fn definition(scope: &Scope<'_>, least: &mut Least, sort: Option<Sort>, e: &Expr) -> Part
    ensures part { IsPart (scope_view scope.now) (expr_view e.now) result }
    ensures least { (fs : List Refused) → IsLeast (least_view least.old) fs
        → IsLeast (least_view least.new) (fs ++ definition_faults (scope_view scope.now) sort (expr_view e.now)) }
{
    let manner = Manner {
        whole_side: false,
        constant: true,
    };
    let found = part(scope, least, manner, e);
    least.note_if(differ(sort, found.sort), What::TypeClash, found.from);
    found
}
