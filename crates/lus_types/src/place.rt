//! The type of an expression by tables of names.

ghost use Rattle.std.specs.Prelude.{◌≡◌};
ghost use Rattle.lus_tree.specs.View.{decl_view, expr_view};
ghost use Rattle.lus_types.specs.Names.{output_sort, sort_by};
ghost use Rattle.lus_types.specs.Places.{calls_at, names_at};

use crate::tables::{Table, Tables};
use lus_scopes::sorts::{call_sort, operator_sort};
use lus_tree::{Decl, Expr, Form, Sort};

/// The names of a declaration, and those that all declarations share.
#[derive(Clone, Copy)]
pub(crate) struct Place<'t> {
    pub(crate) own: &'t Table,
    pub(crate) tables: &'t Tables,
    pub(crate) decls: &'t [Decl],
}

/// The type of the one output of a node or function.
fn output_sort(decl: &Decl) -> Option<Sort>
    ensures { result ≡ output_sort (decl_view decl.now) }
{
    match decl {
        Decl::Node(node) => call_sort(Some(node)),
        Decl::Constant(_) | Decl::Contract(_) => None,
    }
}

impl Place<'_> {
    /// The type of a name.
    fn name_sort(self, name: &str) -> Option<Sort>
        ensures { result ≡ names_at self.entry name.now }
    {
        match self.own.get(name) {
            Some(found) => found.sort,
            None => match self.tables.constants.get(name) {
                Some(found) => found.sort,
                None => None,
            },
        }
    }

    /// The type of a call.
    fn call_sort(self, callee: &str) -> Option<Sort>
        ensures { result ≡ calls_at self.entry callee.now }
    {
        match self.tables.declared.get(callee) {
            Some(number) => match self.decls.get(*number) {
                Some(decl) => output_sort(decl),
                None => None,
            },
            None => None,
        }
    }

    /// The type of an expression, where it has one.
    #[tactic(auto, using(lus_tree::proofs::Views::form_views))]
    pub(crate) fn sort_of(self, e: &Expr) -> Option<Sort>
        ensures { result ≡ sort_by (names_at self.entry) (calls_at self.entry) (expr_view e.now) }
    {
        match &e.form {
            Form::Truth(_) | Form::Not(_) | Form::ModeName(_, _) => Some(Sort::Bool),
            Form::Number(_) | Form::Minus(_) => Some(Sort::Int),
            Form::Binary(operator, _, _) => Some(operator_sort(*operator)),
            Form::Name(x) => self.name_sort(x),
            Form::Pre(_, a) | Form::Arrow(_, a, _) | Form::If(_, a, _) | Form::When(a, _, _) => {
                self.sort_of(a)
            }
            Form::Merge(_, a, _) => self.sort_of(a),
            Form::Call(_, callee, _) | Form::Condact(_, _, callee, _, _) => {
                self.call_sort(&callee.text)
            }
        }
    }
}
