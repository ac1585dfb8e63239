//! Faults by what is known of the parts.

ghost use Rattle.std.specs.Prelude.{◌≡◌, Some};
ghost use Rattle.lus_tree.specs.Reason.{type_clash};
ghost use Rattle.lus_tree.specs.View.{word_view};
ghost use Rattle.lus_meaning.specs.Faults.{differ, if_so};
ghost use Rattle.lus_meaning.specs.ExpressionFaults.{used_as_clock};
ghost use Rattle.lus_scopes.specs.Least.{least_view, noted_all};
ghost use Rattle.lus_scopes.specs.Parts.{agree_notes, both_notes, operator_notes, sort_notes};
ghost use Rattle.lus_scopes.specs.Scopes.{scope_view};

use crate::found::Part;
use crate::least::Least;
use crate::lookup::looked_up;
use crate::scope::Scope;
use crate::values::is_zero;
use lus_tree::{Operator, PlacedName, Pos, Sort, What};

/// Whether two types are there and differ.
pub(crate) fn differ(first: Option<Sort>, second: Option<Sort>) -> bool
    ensures { result ≡ differ first second }
{
    match (first, second) {
        (Some(Sort::Bool), Some(Sort::Int)) | (Some(Sort::Int), Some(Sort::Bool)) => true,
        _ => false,
    }
}

/// Notes a part of another type than is needed.
pub(crate) fn needs_sort(least: &mut Least, sort: Sort, part: &Part)
    ensures { least_view least.new ≡ noted_all (least_view least.old)
        (sort_notes sort part.now) }
{
    least.note_if(differ(Some(sort), part.sort), What::TypeClash, part.from);
}

/// Notes the second of two parts where their types differ.
pub(crate) fn agree(least: &mut Least, first: &Part, second: &Part)
    ensures { least_view least.new ≡ noted_all (least_view least.old)
        (agree_notes first.now second.now) }
{
    least.note_if(
        differ(first.sort, second.sort),
        What::TypeClash,
        second.from,
    );
}

/// Notes a name that is no clock: not known, a constant, or no stream of truth values.
#[tactic(auto, using(crate::proofs::Leasts::noted_append))]
pub(crate) fn used_as_clock(scope: &Scope<'_>, least: &mut Least, word: &PlacedName)
    ensures { least_view least.new ≡ noted_all (least_view least.old)
        (used_as_clock (scope_view scope.now) (word_view word.now)) }
{
    let found = looked_up(scope, &word.text);
    least.note_if(!found.known || found.constant, What::NameUnknown, word.at);
    least.note_if(
        differ(Some(Sort::Bool), found.sort),
        What::TypeClash,
        word.at,
    );
}

/// Notes two operands of other types than are needed.
#[tactic(auto, using(crate::proofs::Leasts::noted_append))]
fn both_need_sort(least: &mut Least, sort: Sort, left: &Part, right: &Part)
    ensures { least_view least.new ≡ noted_all (least_view least.old) (both_notes sort left.now right.now) }
{
    needs_sort(least, sort, left);
    needs_sort(least, sort, right);
}

/// Notes what is wrong with an operator, the constants in its right operand left aside.
#[tactic(auto, using(crate::proofs::Leasts::noted_append))]
pub(crate) fn note_operator(
    least: &mut Least,
    at: Pos,
    operator: Operator,
    left: &Part,
    right: &Part,
)
    ensures { least_view least.new ≡ noted_all (least_view least.old) (operator_notes at operator left.now right.now) }
{
    match operator {
        Operator::Implies | Operator::Or | Operator::Xor | Operator::And => {
            both_need_sort(least, Sort::Bool, left, right);
        }
        Operator::Equal | Operator::Differs => agree(least, left, right),
        Operator::Mul => {
            both_need_sort(least, Sort::Int, left, right);
            least.note_if(!(left.constant || right.constant), What::NotLinear, at);
        }
        Operator::Div | Operator::Mod => {
            both_need_sort(least, Sort::Int, left, right);
            least.note_if(
                right.constant && is_zero(right.worth.value),
                What::ZeroDivisor,
                at,
            );
        }
        Operator::Less
        | Operator::AtMost
        | Operator::AtLeast
        | Operator::More
        | Operator::Add
        | Operator::Sub => both_need_sort(least, Sort::Int, left, right),
    }
}
