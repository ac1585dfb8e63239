//! The type of an expression, without its faults.

ghost use Rattle.std.specs.Prelude.{◌≡◌, option_and_then, option_map};
ghost use Rattle.lus_tree.specs.View.{expr_view, node_view};
ghost use Rattle.lus_meaning.specs.Run.{sort_of_operator};
ghost use Rattle.lus_meaning.specs.Scope.{only_sort, type_of};
ghost use Rattle.lus_scopes.specs.Scopes.{scope_view};

use crate::lookup::looked_up;
use crate::scope::Scope;
use lus_tree::{Expr, Form, Node, Operator, Sort};

/// The type of an operator's results.
pub fn operator_sort(operator: Operator) -> Sort
    ensures { result ≡ sort_of_operator operator }
{
    match operator {
        Operator::Add | Operator::Sub | Operator::Mul | Operator::Div | Operator::Mod => Sort::Int,
        Operator::Implies
        | Operator::Or
        | Operator::Xor
        | Operator::And
        | Operator::Less
        | Operator::AtMost
        | Operator::Equal
        | Operator::Differs
        | Operator::AtLeast
        | Operator::More => Sort::Bool,
    }
}

/// The type of a call of a callee with one output.
pub fn call_sort(callee: Option<&Node>) -> Option<Sort>
    ensures { result ≡ option_and_then (λ n. only_sort n.outputs) (option_map (λ n. node_view n.now) callee.entry) }
{
    match callee?.outputs.as_slice() {
        [output] => Some(output.sort),
        _ => None,
    }
}

/// The type of an expression, where it has one.
#[tactic(auto, using(lus_tree::proofs::Views::form_views))]
pub(crate) fn sort_of(scope: &Scope<'_>, e: &Expr) -> Option<Sort>
    ensures { result ≡ type_of (scope_view scope.now) (expr_view e.now) }
{
    match &e.form {
        Form::Truth(_) | Form::Not(_) | Form::ModeName(_, _) => Some(Sort::Bool),
        Form::Number(_) | Form::Minus(_) => Some(Sort::Int),
        Form::Binary(operator, _, _) => Some(operator_sort(*operator)),
        Form::Name(x) => looked_up(scope, x).sort,
        Form::Pre(_, a) | Form::Arrow(_, a, _) | Form::If(_, a, _) | Form::When(a, _, _) => {
            sort_of(scope, a)
        }
        Form::Merge(_, a, _) => sort_of(scope, a),
        Form::Call(_, callee, _) | Form::Condact(_, _, callee, _, _) => {
            call_sort(scope.declarations.node(&callee.text))
        }
    }
}
