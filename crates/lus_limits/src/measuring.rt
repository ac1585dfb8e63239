//! The sizes of the terms of expressions.

ghost use Rattle.std.specs.Prelude.{◌≡◌, ◌&&◌, cond, false, not, length, map, option_map, option_to_list, unwrap_or};
ghost use Rattle.std.specs.Map.{lookup};
ghost use Rattle.lus_tree.specs.Tree.{Place, text_of};
ghost use Rattle.lus_tree.specs.View.{expr_view, form_view, word_view};
ghost use Rattle.lus_meaning.specs.Depends.{named_in};
ghost use Rattle.lus_meaning.specs.Scene.{variables};
ghost use Rattle.lus_meaning.specs.Meaning.{mode_key, same_path};
ghost use Rattle.lus_meaning.specs.Sizes.{either, is_fixed, leaf, operator_size, size_in};
ghost use Rattle.lus_limits.specs.Measured.{mode_view, modes_view, name_seen, size_view};
ghost use Rattle.lus_streams.specs.Names.{names_view};
ghost use Rattle.lus_limits.specs.SizeCuts.{cut_term};

use crate::term_size::{Size, cut, leaf, one, three, two};
use lus_streams::names::Names;
use lus_tree::{Expr, Form, Operator, PlacedName};

/// The size of a mode's requires: of one of the contract itself, or of one that it imports.
#[derive(Drop)]
pub(crate) struct ModeSize {
    pub(crate) contract: Option<PlacedName>,
    pub(crate) mode: PlacedName,
    pub(crate) size: Size,
}

/// The names of a declaration, and the modes that are known.
#[derive(Clone, Copy)]
pub(crate) struct Scope<'a, 's> {
    pub(crate) names: Names<'a, 's>,
    pub(crate) modes: &'s [ModeSize],
}

/// Whether an expression is a constant, and its size.
#[derive(Clone, Copy)]
pub(crate) struct Measured {
    pub(crate) fixed: bool,
    pub(crate) size: Size,
}

/// Whether two names, where they are given, are the same, or neither is given.
fn is_same_contract(left: &Option<PlacedName>, right: &Option<PlacedName>) -> bool
    ensures { result ≡ same_path (option_to_list (option_map name_seen left.now))
        (option_to_list (option_map name_seen right.now)) }
{
    match (left, right) {
        (Some(left), Some(right)) => left.text.as_str() == right.text.as_str(),
        (None, None) => true,
        (Some(_), None) | (None, Some(_)) => false,
    }
}

/// Whether it is that mode.
fn is_named(entry: &ModeSize, contract: &Option<PlacedName>, mode: &PlacedName) -> bool
    ensures { result ≡ mode_key (option_to_list (option_map name_seen contract.now), (word_view mode.now).text)
        (mode_view entry.now).0 }
{
    is_same_contract(contract, &entry.contract) && mode.text.as_str() == entry.mode.text.as_str()
}

/// The size of the first mode of that name, cut.
fn mode_size(modes: &[ModeSize], contract: &Option<PlacedName>, mode: &PlacedName) -> Size
    ensures { size_view result ≡ cut_term (unwrap_or (lookup
        (mode_key (option_to_list (option_map name_seen contract.now), (word_view mode.now).text))
        (modes_view modes.now)) leaf) }
{
    for entry in modes {
        if is_named(entry, contract, mode) {
            return cut(entry.size);
        }
    }
    leaf()
}

/// Whether a name is of a constant.
fn is_constant(names: Names<'_, '_>, name: &str) -> bool
    ensures { result ≡ not (named_in name.now (map (λ v. v.name.text) (variables (names_view names.entry)))) }
{
    names.clock(name).is_none()
}

/// Of what is a constant a leaf.
fn unless_fixed(fixed: bool, size: Size) -> Size
    ensures { size_view result ≡ cond fixed leaf (size_view size) }
{
    if fixed { leaf() } else { size }
}

/// Of a disjunction.
fn either(left: Size, right: Size) -> Size
    ensures { size_view result ≡ cut_term (either (size_view left) (size_view right)) }
{
    one(two(one(left), one(right)))
}

/// Of an operator's term, whose left operand is a constant or not.
fn operated(operator: Operator, fixed: bool, left: Size, right: Size) -> Size
    ensures { size_view result ≡ cut_term (operator_size operator fixed (size_view left) (size_view right)) }
{
    match operator {
        Operator::Implies => one(two(left, one(right))),
        Operator::Or => either(left, right),
        Operator::And
        | Operator::AtMost
        | Operator::AtLeast
        | Operator::Equal
        | Operator::Add
        | Operator::Sub => two(left, right),
        Operator::Mul => one(if fixed { right } else { left }),
        Operator::Div | Operator::Mod => one(left),
        Operator::Xor | Operator::Less | Operator::Differs | Operator::More => one(two(
            left, right,
        )),
    }
}

/// What is a constant or not, of a term of that size where it is none.
fn judged(fixed: bool, size: Size) -> Measured
    ensures fixed { result.fixed ≡ fixed }
    ensures size { size_view result.size ≡ cond fixed leaf (size_view size) }
{
    Measured {
        fixed,
        size: unless_fixed(fixed, size),
    }
}

/// What is no constant.
fn varying(size: Size) -> Measured
    ensures fixed { result.fixed ≡ false }
    ensures size { size_view result.size ≡ size_view size }
{
    Measured { fixed: false, size }
}

/// Whether an expression is a constant, and the size of its term.
#[cycle(measure)]
#[tactic(auto, using(lus_tree::proofs::Views::form_views))]
pub(crate) fn measure(scope: &Scope<'_, '_>, e: &Expr) -> Measured
    ensures fixed { result.fixed ≡ is_fixed (names_view scope.now.names) (expr_view e.now) }
    ensures size { size_view result.size
        ≡ cut_term (size_in (names_view scope.now.names) (modes_view scope.now.modes.now) (expr_view e.now)) }
{
    match &e.form {
        Form::Truth(_) | Form::Number(_) => Measured {
            fixed: true,
            size: leaf(),
        },
        Form::Name(x) => Measured {
            fixed: is_constant(scope.names, x),
            size: leaf(),
        },
        Form::Not(a) | Form::Minus(a) => {
            let inner = measure(scope, a);
            judged(inner.fixed, one(inner.size))
        }
        Form::Binary(operator, a, b) => {
            let left = measure(scope, a);
            let right = measure(scope, b);
            let size = operated(*operator, left.fixed, left.size, right.size);
            judged(left.fixed && right.fixed, size)
        }
        Form::If(a, b, c) => {
            let condition = measure(scope, a);
            let chosen = measure(scope, b);
            let otherwise = measure(scope, c);
            let fixed = condition.fixed && chosen.fixed && otherwise.fixed;
            judged(fixed, three(condition.size, chosen.size, otherwise.size))
        }
        Form::When(a, _, _) => varying(measure(scope, a).size),
        Form::Arrow(_, a, b) | Form::Merge(_, a, b) => {
            varying(three(leaf(), measure(scope, a).size, measure(scope, b).size))
        }
        Form::Pre(_, _) | Form::Call(_, _, _) => varying(leaf()),
        Form::Condact(_, _, _, _, _) => varying(three(leaf(), leaf(), leaf())),
        Form::ModeName(contract, mode) => varying(mode_size(scope.modes, contract, mode)),
    }
}
