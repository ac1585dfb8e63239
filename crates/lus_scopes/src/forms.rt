//! What is known of an expression by what is known of its parts, and its own faults.

ghost use Rattle.std.specs.Prelude.{◌≡◌, ◌++◌, ◌&&◌, false, true, length, not, pos, Some, None, option_and_then, option_map};
ghost use Rattle.lus_tree.specs.declared.place.Sort.TheVariants.{Bool as Flags, Int as Numbers};
ghost use Rattle.lus_tree.specs.Reason.{mode_unknown};
ghost use Rattle.lus_tree.specs.View.{node_view, word_view};
ghost use Rattle.lus_meaning.specs.Run.{sort_of_operator};
ghost use Rattle.lus_meaning.specs.Faults.{if_so};
ghost use Rattle.lus_meaning.specs.ExpressionFaults.{mode_is_known, used, used_as_clock};
ghost use Rattle.lus_meaning.specs.Scope.{choice_worth, greater, is_constant_name, name_weight, only_sort, operator_worth, sort_of_entry, value_of_entry, weighing, worth};
ghost use Rattle.lus_meaning.specs.Value.{flag, minus_value, not_value, whole};
ghost use Rattle.lus_scopes.specs.Cut.{cut_worth};
ghost use Rattle.lus_scopes.specs.Least.{least_view, noted_all};
ghost use Rattle.lus_scopes.specs.Made.{IsMade};
ghost use Rattle.lus_scopes.specs.Parts.{agree_notes, operator_notes, sort_notes};
ghost use Rattle.lus_scopes.specs.Scopes.{scope_view};
ghost use Rattle.lus_scopes.specs.Walk.{call_own, default_own};
ghost use Rattle.lus_scopes.specs.Worth.{worth_view};

use crate::calls::{note_call, note_defaults};
use crate::found::Part;
use crate::least::Least;
use crate::lookup::{is_mode, looked_up};
use crate::notes::{agree, needs_sort, note_operator, used_as_clock};
use crate::scope::Scope;
use crate::sorts::{call_sort, operator_sort};
use crate::worths::{chosen, either, minus, not, of_number, of_truth, operated, weighing};
use lus_tree::{Expr, Node, Operator, PlacedName, Pos, Sort, What};

/// A name.
pub(crate) fn name_part(scope: &Scope<'_>, least: &mut Least, from: Pos, at: Pos, x: &str) -> Part
    ensures part { IsMade from (sort_of_entry (scope_view scope.now) x.now) (is_constant_name (scope_view scope.now) x.now)
        (cut_worth (worth (value_of_entry (scope_view scope.now) x.now) (name_weight (scope_view scope.now) x.now))) result }
    ensures least { least_view least.new ≡ noted_all (least_view least.old) (used (scope_view scope.now) x.now at) }
{
    let found = looked_up(scope, x);
    least.note_if(!found.known, What::NameUnknown, at);
    Part {
        from,
        sort: found.sort,
        constant: found.constant,
        worth: found.worth,
    }
}

/// A truth value.
pub(crate) fn truth_part(from: Pos, value: bool) -> Part
    ensures { IsMade from (Some Flags) true (worth (flag value) None) result }
{
    Part {
        from,
        sort: Some(Sort::Bool),
        constant: true,
        worth: of_truth(value),
    }
}

/// A number.
pub(crate) fn number_part(from: Pos, number: u64) -> Part
    ensures { IsMade from (Some Numbers) true (cut_worth (worth (whole (pos number)) (Some number))) result }
{
    Part {
        from,
        sort: Some(Sort::Int),
        constant: true,
        worth: of_number(number),
    }
}

/// `not a`
pub(crate) fn not_part(from: Pos, operand: &Part) -> Part
    ensures { IsMade from (Some Flags) operand.now.constant
        (cut_worth (worth (not_value (worth_view operand.now.worth).value) None)) result }
{
    Part {
        from,
        sort: Some(Sort::Bool),
        constant: operand.constant,
        worth: not(operand.worth),
    }
}

/// `- a`
pub(crate) fn minus_part(from: Pos, operand: &Part) -> Part
    ensures { IsMade from (Some Numbers) operand.now.constant
        (worth (minus_value (worth_view operand.now.worth).value) (worth_view operand.now.worth).weight) result }
{
    Part {
        from,
        sort: Some(Sort::Int),
        constant: operand.constant,
        worth: minus(operand.worth),
    }
}

/// `pre a`
pub(crate) fn pre_part(from: Pos, operand: &Part) -> Part
    ensures { IsMade from operand.now.sort false (weighing (Some 1)) result }
{
    Part {
        from,
        sort: operand.sort,
        constant: false,
        worth: weighing(Some(1)),
    }
}

/// `a -> b`
pub(crate) fn arrow_part(least: &mut Least, from: Pos, first: &Part, second: &Part) -> Part
    ensures part { IsMade from first.now.sort false
        (cut_worth (weighing (greater (worth_view first.now.worth).weight (worth_view second.now.worth).weight))) result }
    ensures least { least_view least.new ≡ noted_all (least_view least.old) (agree_notes first.now second.now) }
{
    agree(least, first, second);
    Part {
        from,
        sort: first.sort,
        constant: false,
        worth: either(first.worth, second.worth),
    }
}

/// `a OPERATOR b`
pub(crate) fn operator_part(
    least: &mut Least,
    from: Pos,
    at: Pos,
    operator: Operator,
    left: &Part,
    right: &Part,
) -> Part
    ensures part { IsMade from (Some (sort_of_operator operator)) (left.now.constant && right.now.constant)
        (cut_worth (operator_worth operator left.now.constant (worth_view left.now.worth) (worth_view right.now.worth))) result }
    ensures least { least_view least.new ≡ noted_all (least_view least.old)
        (operator_notes at operator left.now right.now) }
{
    note_operator(least, at, operator, left, right);
    Part {
        from,
        sort: Some(operator_sort(operator)),
        constant: left.constant && right.constant,
        worth: operated(operator, left.constant, left.worth, right.worth),
    }
}

/// `if a then b else c`
#[tactic(auto, using(crate::proofs::Leasts::noted_append))]
pub(crate) fn choice_part(
    least: &mut Least,
    from: Pos,
    condition: &Part,
    first: &Part,
    second: &Part,
) -> Part
    ensures part { IsMade from first.now.sort (condition.now.constant && (first.now.constant && second.now.constant))
        (cut_worth (choice_worth (worth_view condition.now.worth) (worth_view first.now.worth) (worth_view second.now.worth))) result }
    ensures least { least_view least.new ≡ noted_all (least_view least.old)
        (sort_notes Flags condition.now ++ agree_notes first.now second.now) }
{
    needs_sort(least, Sort::Bool, condition);
    agree(least, first, second);
    Part {
        from,
        sort: first.sort,
        constant: condition.constant && (first.constant && second.constant),
        worth: chosen(condition.worth, first.worth, second.worth),
    }
}

/// `a when c`, or `a when not c`
pub(crate) fn sampled_part(
    scope: &Scope<'_>,
    least: &mut Least,
    from: Pos,
    operand: &Part,
    clock: &PlacedName,
) -> Part
    ensures part { IsMade from operand.now.sort false (weighing (worth_view operand.now.worth).weight) result }
    ensures least { least_view least.new ≡ noted_all (least_view least.old)
        (used_as_clock (scope_view scope.now) (word_view clock.now)) }
{
    used_as_clock(scope, least, clock);
    Part {
        from,
        sort: operand.sort,
        constant: false,
        worth: weighing(operand.worth.weight),
    }
}

/// `merge c (true -> a) (false -> b)`
#[tactic(auto, using(crate::proofs::Leasts::noted_append))]
pub(crate) fn merged_part(
    scope: &Scope<'_>,
    least: &mut Least,
    from: Pos,
    clock: &PlacedName,
    first: &Part,
    second: &Part,
) -> Part
    ensures part { IsMade from first.now.sort false
        (cut_worth (weighing (greater (worth_view first.now.worth).weight (worth_view second.now.worth).weight))) result }
    ensures least { least_view least.new ≡ noted_all (least_view least.old)
        (used_as_clock (scope_view scope.now) (word_view clock.now) ++ agree_notes first.now second.now) }
{
    used_as_clock(scope, least, clock);
    agree(least, first, second);
    Part {
        from,
        sort: first.sort,
        constant: false,
        worth: either(first.worth, second.worth),
    }
}

/// A call.
pub(crate) fn call_part(
    least: &mut Least,
    whole_side: bool,
    from: Pos,
    callee: &PlacedName,
    arguments: &[Expr],
    node: Option<&Node>,
) -> Part
    ensures part { IsMade from (option_and_then (λ n. only_sort n.outputs) (option_map (λ n. node_view n.now) node.entry)) false
        (weighing (Some 1)) result }
    ensures least { least_view least.new ≡ noted_all (least_view least.old)
        (call_own whole_side (word_view callee.now) (length arguments.now) (option_map (λ n. node_view n.now) node.entry)) }
{
    note_call(least, whole_side, callee, arguments.len(), node);
    Part {
        from,
        sort: call_sort(node),
        constant: false,
        worth: weighing(Some(1)),
    }
}

/// `::mode`, or `::contract::mode`
pub(crate) fn mode_part(
    scope: &Scope<'_>,
    least: &mut Least,
    from: Pos,
    contract: &Option<PlacedName>,
    mode: &PlacedName,
) -> Part
    ensures part { IsMade from (Some Flags) false (weighing None) result }
    ensures least { least_view least.new ≡ noted_all (least_view least.old)
        (if_so (not (mode_is_known (scope_view scope.now) (option_map word_view contract.now) (word_view mode.now))) mode_unknown mode.now.at) }
{
    least.note_if(!is_mode(scope, contract, mode), What::ModeUnknown, mode.at);
    Part {
        from,
        sort: Some(Sort::Bool),
        constant: false,
        worth: weighing(None),
    }
}

/// An activated call.
#[tactic(auto, using(crate::proofs::Leasts::noted_append))]
pub(crate) fn condact_part(
    least: &mut Least,
    whole_side: bool,
    from: Pos,
    callee: &PlacedName,
    arguments: &[Expr],
    defaults: &[Expr],
    node: Option<&Node>,
) -> Part
    ensures part { IsMade from (option_and_then (λ n. only_sort n.outputs) (option_map (λ n. node_view n.now) node.entry)) false
        (weighing (Some 1)) result }
    ensures least { least_view least.new ≡ noted_all (least_view least.old)
        (call_own whole_side (word_view callee.now) (length arguments.now) (option_map (λ n. node_view n.now) node.entry)
        ++ default_own (word_view callee.now) (length defaults.now) (option_map (λ n. node_view n.now) node.entry)) }
{
    let found = call_part(least, whole_side, from, callee, arguments, node);
    note_defaults(least, callee, defaults.len(), node);
    found
}
