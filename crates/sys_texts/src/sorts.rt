//! The types of expressions.

ghost use Rattle.std.specs.Prelude.{◌≡◌, map};
ghost use Rattle.lus_tree.specs.View.{expr_view};
ghost use Rattle.lus_meaning.specs.Run.{sort_of_operator};
ghost use Rattle.sys_texts.specs.Sights.{called_sort, first_output_sort};
ghost use Rattle.sys_texts.specs.Texts.{sort_by};
ghost use Rattle.sys_texts.specs.Views.{call_view, output_view, sight_view};

use crate::sight::{Call, Output, Sight, name_sort};
use lus_tree::{Expr, Form, Operator, Sort};

/// The type of the first output.
fn first_output_sort(outputs: &[Output]) -> Sort
    ensures { result ≡ first_output_sort (map output_view outputs.now) }
{
    match outputs {
        [] => Sort::Bool,
        [first, ..] => first.sort,
    }
}

/// The type of the first output of the first call of this callee.
fn called_sort(calls: &[Call<'_>], callee: &str) -> Sort
    ensures { result ≡ called_sort (map call_view calls.now) callee.now }
{
    for call in calls {
        if callee == call.callee {
            return first_output_sort(&call.outputs);
        }
    }
    Sort::Bool
}

/// The type of an operator's result.
fn operator_sort(operator: Operator) -> Sort
    ensures { result ≡ sort_of_operator operator }
{
    match operator {
        Operator::Add | Operator::Sub | Operator::Mul | Operator::Div | Operator::Mod => Sort::Int,
        Operator::Implies
        | Operator::Or
        | Operator::Xor
        | Operator::And
        | Operator::Less
        | Operator::AtMost
        | Operator::Equal
        | Operator::Differs
        | Operator::AtLeast
        | Operator::More => Sort::Bool,
    }
}

/// The type of an expression.
#[tactic(auto, using(lus_tree::proofs::Views::form_views))]
pub fn sort_of(sight: &Sight<'_>, e: &Expr) -> Sort
    ensures { result ≡ sort_by (sight_view sight.now) (expr_view e.now) }
{
    match &e.form {
        Form::Truth(_) | Form::Not(_) | Form::ModeName(_, _) => Sort::Bool,
        Form::Number(_) | Form::Minus(_) => Sort::Int,
        Form::Name(x) => name_sort(sight, x),
        Form::Binary(operator, _, _) => operator_sort(*operator),
        Form::Pre(_, a)
        | Form::Arrow(_, a, _)
        | Form::When(a, _, _)
        | Form::Merge(_, a, _)
        | Form::If(_, a, _) => sort_of(sight, a),
        Form::Call(_, callee, _) | Form::Condact(_, _, callee, _, _) => {
            called_sort(&sight.calls, &callee.text)
        }
    }
}
