//! The type, the value and the faults of an expression, its parts first.

ghost use Rattle.std.specs.Prelude.{◌≡◌, ℕ, ◌++◌, ◌&&◌, ◌||◌, Bool, false, true, cond, length, map, slice_get, Some, None, option_map};
ghost use Rattle.lus_tree.specs.declared.place.Pos.{Pos};
ghost use Rattle.lus_tree.specs.Tree.{Place, Expression, truth, number, name, negation, minus, pre, arrow, binary, choice, sampled, merged, call, condact, mode_name};
ghost use Rattle.lus_tree.specs.View.{expr_view, exprs_view, form_view, joined, node_view, param_view, word_view};
ghost use Rattle.lus_tree.specs.Reason.{heavy, not_constant};
ghost use Rattle.lus_meaning.specs.Faults.{faults_at, if_so};
ghost use Rattle.lus_meaning.specs.ExpressionFaults.{is_integer, needs_sort};
ghost use Rattle.lus_meaning.specs.Scope.{is_heavy, node_named};
ghost use Rattle.lus_scopes.specs.Least.{least_view, noted_all};
ghost use Rattle.lus_scopes.specs.Parts.{IsPart, always_notes};
ghost use Rattle.lus_scopes.specs.Scopes.{scope_view};
ghost use Rattle.lus_scopes.specs.Walk.{always, fits_stream, hinders, inputs_for, is_division, outputs_for, walk, walk_among, whole_walk};

use crate::calls::{inputs_for, outputs_for, stream_at};
use crate::forms::{
    arrow_part, call_part, choice_part, condact_part, merged_part, minus_part, mode_part,
    name_part, not_part, number_part, operator_part, pre_part, sampled_part, truth_part,
};
use crate::found::Part;
use crate::least::Least;
use crate::notes::needs_sort;
use crate::scope::Scope;
use crate::weights::is_heavy;
use lus_tree::{Expr, Form, Node, Operator, Param, PlacedName, Pos, Sort, What};

/// How an expression stands: whether it is the whole right side of an equation, and whether it is
/// to be constant.
#[derive(Clone, Copy)]
pub(crate) struct Manner {
    pub(crate) whole_side: bool,
    pub(crate) constant: bool,
}

/// Whether an operator is a division.
fn is_division(operator: Operator) -> bool
    ensures { result ≡ is_division operator }
{
    operator == Operator::Div || operator == Operator::Mod
}

/// Whether an operator's right operand is to be constant.
fn is_wanted(constant: bool, operator: Operator) -> bool
    ensures { result ≡ constant || is_division operator }
{
    constant || is_division(operator)
}

/// Whether a form is no constant, its parts left aside.
#[tactic(auto, using(lus_tree::proofs::Views::form_views))]
fn hinders(form: &Form, constant: bool) -> bool
    ensures { (p : Place) → result ≡ hinders (form_view form.now p) constant }
{
    match form {
        Form::Name(_) => !constant,
        Form::Pre(_, _)
        | Form::Arrow(_, _, _)
        | Form::When(_, _, _)
        | Form::Merge(_, _, _)
        | Form::Call(_, _, _)
        | Form::Condact(_, _, _, _, _)
        | Form::ModeName(_, _) => true,
        Form::Truth(_)
        | Form::Number(_)
        | Form::Not(_)
        | Form::Minus(_)
        | Form::Binary(_, _, _)
        | Form::If(_, _, _) => false,
    }
}

/// Whether a part is an integer whose weight is too great.
fn is_too_heavy(part: &Part) -> bool
    ensures { result ≡ is_integer part.now.sort && is_heavy part.now.worth.weight }
{
    match part.sort {
        Some(Sort::Int) => is_heavy(part.worth.weight),
        Some(Sort::Bool) | None => false,
    }
}

/// Notes a part that is too heavy, and where a constant is wanted, one that is none by itself.
#[tactic(auto, using(crate::proofs::Leasts::noted_append))]
fn note_by(least: &mut Least, constant: bool, from: Pos, at: Pos, hinders: bool, part: &Part)
    ensures { least_view least.new ≡ noted_all (least_view least.old) (always_notes constant from at hinders part.now) }
{
    least.note_if(is_too_heavy(part), What::Heavy, from);
    least.note_if(constant && hinders, What::NotConstant, at);
}

/// Notes what every part may be: too heavy, and where a constant is wanted, none.
#[tactic(auto, using(lus_tree::proofs::Views::form_views, crate::proofs::Placed::always_noted))]
fn note_always(scope: &Scope<'_>, least: &mut Least, constant: bool, e: &Expr, part: &Part)
    requires { IsPart (scope_view scope.now) (expr_view e.now) part.now }
    ensures { least_view least.new ≡ noted_all (least_view least.old)
        (always (scope_view scope.now) constant (expr_view e.now)) }
{
    let hinders = hinders(&e.form, part.constant);
    note_by(least, constant, e.from, e.at, hinders, part);
}

/// Notes the faults of an expression, and gives what is known of it. The faults of its parts are
/// noted before its own.
#[cycle(part)]
#[tactic(auto, using(lus_tree::proofs::Views::form_views, crate::proofs::Leasts::noted_append))]
pub(crate) fn part(scope: &Scope<'_>, least: &mut Least, manner: Manner, e: &Expr) -> Part
    ensures part { IsPart (scope_view scope.now) (expr_view e.now) result }
    ensures least { least_view least.new ≡ noted_all (least_view least.old)
        (whole_walk (scope_view scope.now) manner.whole_side manner.constant (expr_view e.now)) }
{
    let found = form_part(scope, least, manner, e.from, e.at, &e.form);
    note_always(scope, least, manner.constant, e, &found);
    found
}

/// A part of an expression.
#[cycle(part)]
fn operand(scope: &Scope<'_>, least: &mut Least, constant: bool, e: &Expr) -> Part
    ensures part { IsPart (scope_view scope.now) (expr_view e.now) result }
    ensures least { least_view least.new ≡ noted_all (least_view least.old)
        (whole_walk (scope_view scope.now) false constant (expr_view e.now)) }
{
    let manner = Manner {
        whole_side: false,
        constant,
    };
    part(scope, least, manner, e)
}

/// A part of an expression that is to be of that type.
#[cycle(part)]
#[tactic(auto, using(crate::proofs::Leasts::noted_append, crate::proofs::Parts::sort_noted))]
fn operand_of(scope: &Scope<'_>, least: &mut Least, constant: bool, sort: Sort, e: &Expr) -> Part
    ensures part { IsPart (scope_view scope.now) (expr_view e.now) result }
    ensures least { least_view least.new ≡ noted_all (least_view least.old)
        (whole_walk (scope_view scope.now) false constant (expr_view e.now)
        ++ needs_sort (scope_view scope.now) sort (expr_view e.now)) }
{
    let found = operand(scope, least, constant, e);
    needs_sort(least, sort, &found);
    found
}

/// What is known of a form, and its faults, but for what is noted of every part.
#[cycle(part)]
#[tactic(auto, using(lus_tree::proofs::Views::form_views, crate::proofs::Leasts::noted_append))]
fn form_part(
    scope: &Scope<'_>,
    least: &mut Least,
    manner: Manner,
    from: Pos,
    at: Pos,
    form: &Form,
) -> Part
    ensures part { IsPart (scope_view scope.now) (form_view form.now record { from = from; at = at }) result }
    ensures least { least_view least.new ≡ noted_all (least_view least.old)
        (walk (scope_view scope.now) manner.whole_side manner.constant (form_view form.now record { from = from; at = at })) }
{
    let constant = manner.constant;
    let whole_side = manner.whole_side;
    match form {
        Form::Truth(value) => truth_part(from, *value),
        Form::Number(number) => number_part(from, *number),
        Form::Name(x) => name_part(scope, least, from, at, x),
        Form::Not(a) => not_part(from, &operand_of(scope, least, constant, Sort::Bool, a)),
        Form::Minus(a) => minus_part(from, &operand_of(scope, least, constant, Sort::Int, a)),
        Form::Pre(_, a) => pre_part(from, &operand(scope, least, constant, a)),
        Form::Arrow(_, a, b) => arrow(scope, least, constant, from, a, b),
        Form::Binary(operator, a, b) => {
            let left = operand(scope, least, constant, a);
            let right = operand(scope, least, is_wanted(constant, *operator), b);
            operator_part(least, from, at, *operator, &left, &right)
        }
        Form::If(a, b, c) => choice(scope, least, constant, from, a, b, c),
        Form::When(a, _, clock) => sampled(scope, least, constant, from, a, clock),
        Form::Merge(clock, a, b) => merge(scope, least, constant, from, clock, a, b),
        Form::Call(_, callee, arguments) => call(scope, least, manner, from, callee, arguments),
        Form::Condact(_, a, callee, arguments, defaults) => {
            operand_of(scope, least, constant, Sort::Bool, a);
            let node = arguments_of(scope, least, constant, callee, arguments);
            defaults_of(scope, least, node, defaults);
            condact_part(least, whole_side, from, callee, arguments, defaults, node)
        }
        Form::ModeName(contract, mode) => mode_part(scope, least, from, contract, mode),
    }
}

/// `a -> b`
#[cycle(part)]
fn arrow(
    scope: &Scope<'_>,
    least: &mut Least,
    constant: bool,
    from: Pos,
    a: &Expr,
    b: &Expr,
) -> Part
    ensures part { (at : Pos) (n : ℕ) → IsPart (scope_view scope.now)
        (arrow record { from = from; at = at } n (expr_view a.now) (expr_view b.now)) result }
    ensures least { (p : Place) (n : ℕ) → least_view least.new ≡ noted_all (least_view least.old)
        (walk (scope_view scope.now) false constant (arrow p n (expr_view a.now) (expr_view b.now))) }
{
    let initial = operand(scope, least, constant, a);
    let later = operand(scope, least, constant, b);
    arrow_part(least, from, &initial, &later)
}

/// `if a then b else c`
#[cycle(part)]
fn choice(
    scope: &Scope<'_>,
    least: &mut Least,
    constant: bool,
    from: Pos,
    a: &Expr,
    b: &Expr,
    c: &Expr,
) -> Part
    ensures part { (at : Pos) → IsPart (scope_view scope.now)
        (choice record { from = from; at = at } (expr_view a.now) (expr_view b.now) (expr_view c.now)) result }
    ensures least { (p : Place) → least_view least.new ≡ noted_all (least_view least.old)
        (walk (scope_view scope.now) false constant (choice p (expr_view a.now) (expr_view b.now) (expr_view c.now))) }
{
    let condition = operand(scope, least, constant, a);
    let chosen = operand(scope, least, constant, b);
    let otherwise = operand(scope, least, constant, c);
    choice_part(least, from, &condition, &chosen, &otherwise)
}

/// `a when c`, or `a when not c`
#[cycle(part)]
fn sampled(
    scope: &Scope<'_>,
    least: &mut Least,
    constant: bool,
    from: Pos,
    a: &Expr,
    clock: &PlacedName,
) -> Part
    ensures part { (at : Pos) (truth : Bool) → IsPart (scope_view scope.now)
        (sampled record { from = from; at = at } (expr_view a.now) truth (word_view clock.now)) result }
    ensures least { (p : Place) (truth : Bool) → least_view least.new ≡ noted_all (least_view least.old)
        (walk (scope_view scope.now) false constant (sampled p (expr_view a.now) truth (word_view clock.now))) }
{
    let found = operand(scope, least, constant, a);
    sampled_part(scope, least, from, &found, clock)
}

/// `merge c (true -> a) (false -> b)`
#[cycle(part)]
fn merge(
    scope: &Scope<'_>,
    least: &mut Least,
    constant: bool,
    from: Pos,
    clock: &PlacedName,
    a: &Expr,
    b: &Expr,
) -> Part
    ensures part { (at : Pos) → IsPart (scope_view scope.now)
        (merged record { from = from; at = at } (word_view clock.now) (expr_view a.now) (expr_view b.now)) result }
    ensures least { (p : Place) → least_view least.new ≡ noted_all (least_view least.old)
        (walk (scope_view scope.now) false constant (merged p (word_view clock.now) (expr_view a.now) (expr_view b.now))) }
{
    let on = operand(scope, least, constant, a);
    let off = operand(scope, least, constant, b);
    merged_part(scope, least, from, clock, &on, &off)
}

/// A call.
#[cycle(part)]
fn call(
    scope: &Scope<'_>,
    least: &mut Least,
    manner: Manner,
    from: Pos,
    callee: &PlacedName,
    arguments: &[Expr],
) -> Part
    ensures part { (at : Pos) (n : ℕ) → IsPart (scope_view scope.now)
        (call record { from = from; at = at } n (word_view callee.now) (joined (exprs_view arguments.now))) result }
    ensures least { (p : Place) (n : ℕ) → least_view least.new ≡ noted_all (least_view least.old)
        (walk (scope_view scope.now) manner.whole_side manner.constant
        (call p n (word_view callee.now) (joined (exprs_view arguments.now)))) }
{
    let node = arguments_of(scope, least, manner.constant, callee, arguments);
    call_part(least, manner.whole_side, from, callee, arguments, node)
}

/// The arguments of a call. Gives its callee, where there is one.
#[cycle(part)]
fn arguments_of<'a>(
    scope: &Scope<'a>,
    least: &mut Least,
    constant: bool,
    callee: &PlacedName,
    arguments: &[Expr],
) -> Option<&'a Node>
    ensures callee { option_map (λ n. node_view n.now) result
        ≡ node_named (scope_view scope.now).program (word_view callee.now).text }
    ensures least { least_view least.new ≡ noted_all (least_view least.old)
        (walk_among (scope_view scope.now) constant
        (inputs_for (node_named (scope_view scope.now).program (word_view callee.now).text) (length arguments.now))
        0 (joined (exprs_view arguments.now))) }
{
    let node = scope.declarations.node(&callee.text);
    let inputs = inputs_for(node, arguments.len());
    values(scope, least, constant, inputs, arguments);
    node
}

/// The defaults of an activated call, which are to be constant.
#[cycle(part)]
fn defaults_of(scope: &Scope<'_>, least: &mut Least, callee: Option<&Node>, defaults: &[Expr])
    ensures { least_view least.new ≡ noted_all (least_view least.old)
        (walk_among (scope_view scope.now) true (outputs_for (option_map (λ n. node_view n.now) callee.entry) (length defaults.now))
        0 (joined (exprs_view defaults.now))) }
{
    let outputs = outputs_for(callee, defaults.len());
    values(scope, least, true, outputs, defaults);
}

/// Values of which each goes to a stream, where there are as many.
#[cycle(part)]
#[tactic(auto, using(crate::proofs::Leasts::noted_append))]
fn values(scope: &Scope<'_>, least: &mut Least, constant: bool, streams: &[Param], values: &[Expr])
    ensures { least_view least.new ≡ noted_all (least_view least.old)
        (walk_among (scope_view scope.now) constant (map param_view streams.now) 0 (joined (exprs_view values.now))) }
{
    let mut i = 0;
    for value in values {
        value_part(scope, least, constant, stream_at(streams, i), value);
        i += 1;
    }
}

/// A value that goes to a stream.
#[cycle(part)]
#[tactic(auto, using(crate::proofs::Leasts::noted_append, crate::proofs::Parts::sort_noted))]
fn value_part(
    scope: &Scope<'_>,
    least: &mut Least,
    constant: bool,
    stream: Option<&Param>,
    value: &Expr,
)
    ensures { least_view least.new ≡ noted_all (least_view least.old)
        (whole_walk (scope_view scope.now) false constant (expr_view value.now)
        ++ fits_stream (scope_view scope.now) (option_map (λ v. param_view v.now) stream.entry) (expr_view value.now)) }
{
    let found = operand(scope, least, constant, value);
    if let Some(stream) = stream {
        needs_sort(least, stream.sort, &found);
    }
}
