//! The values of constants.

ghost use Rattle.std.specs.Prelude.{◌≡◌, ◌++◌, ◌∷◌, [], IfOk, OnOk, map, option_map};
ghost use Rattle.std.specs.Map.{lookup};
ghost use Rattle.std.specs.Str.{bytes_eq};
ghost use Rattle.lus_tree.specs.Tree.{Name};
ghost use Rattle.lus_tree.specs.View.{contract_item_view, decl_view, definition_view, expr_view, program_view};
ghost use Rattle.lus_meaning.specs.Program.{contract_statement_constants, program_constants};
ghost use Rattle.lus_streams.specs.Owner.{owner_view};
ghost use Rattle.sys_parts.specs.Constants.{constant_view};
ghost use Rattle.sys_texts.specs.Views.{by_name, folded_view};
ghost use Rattle.sys_tables.specs.Tabled.{own_constants, small_value, small_values, value_of};
ghost use Rattle.sys_tables.specs.Known.{IsBare, values_seen};
ghost use Rattle.sys_tables.specs.Views.{fixed_view};

use crate::noting::note;
use crate::table::Fixed;
use indexmap::IndexMap;
use lus_streams::owner::Owner;
use lus_tree::{ContractItem, Decl, Definition, Expr, Program};
use std::alloc::{AllocError, Global};
use sys_parts::constant::Constant;
use sys_parts::values::no_value;
use sys_texts::folding::Folded;
use sys_texts::sight::Sight;
use sys_texts::texts::folded;

/// Constants with their values, and what is read by them alone.
#[derive(Drop)]
pub(crate) struct Known<'a> {
    pub(crate) values: Vec<Fixed<'a>>,
    pub(crate) sight: Sight<'a>,
}

/// No constants.
fn none_known<'a>(alloc: Global) -> Known<'a>
    ensures values { values_seen result ≡ [] }
    ensures bare { IsBare result }
{
    Known {
        values: Vec::new(alloc),
        sight: Sight {
            beat: 0,
            missing: 0,
            bound: 0,
            constants: IndexMap::new(alloc),
            streams: IndexMap::new(alloc),
            memories: Vec::new(alloc),
            starts: Vec::new(alloc),
            calls: Vec::new(alloc),
        },
    }
}

/// One more constant behind.
fn push<'a>(known: &mut Known<'a>, name: &'a str, value: Constant) -> Result<(), AllocError>
    requires { IsBare known.old }
    ensures values { OnOk result (values_seen known.new ≡ values_seen known.old
        ++ (name.now, constant_view value) ∷ []) }
    ensures bare { OnOk result (IsBare known.new) }
{
    note(&mut known.sight.constants, name, value)?;
    known.values.push(Fixed { name, value })?;
    Ok(())
}

/// What an expression comes to, none where it isn't constant.
fn value_of(folded: Folded) -> Constant
    ensures { constant_view result ≡ value_of (folded_view folded) }
{
    match folded {
        Folded::Known(value) => value,
        Folded::Open(_) => no_value(),
    }
}

/// The value of a constant expression.
pub(crate) fn value(alloc: Global, known: &Known<'_>, e: &Expr) -> Result<Constant, AllocError>
    requires { IsBare known.now }
    ensures { IfOk result (λ v. constant_view v ≡ small_value (values_seen known.now) (expr_view e.now)) }
{
    let found = folded(alloc, &known.sight, &[], e)?;
    Ok(value_of(found))
}

/// One more constant behind, by its definition.
fn push_constant<'a>(
    alloc: Global,
    known: &mut Known<'a>,
    definition: &'a Definition,
) -> Result<(), AllocError>
    requires { IsBare known.old }
    ensures values { OnOk result (values_seen known.new
        ≡ small_values (values_seen known.old) (definition_view definition.now ∷ [])) }
    ensures bare { OnOk result (IsBare known.new) }
{
    let value = value(alloc, known, &definition.value)?;
    push(known, &definition.name.text, value)
}

/// The constants, and behind them these.
fn push_constants<'a>(
    alloc: Global,
    known: &mut Known<'a>,
    constants: &'a [Definition],
) -> Result<(), AllocError>
    requires { IsBare known.old }
    ensures values { OnOk result (values_seen known.new
        ≡ small_values (values_seen known.old) (map definition_view constants.now)) }
    ensures bare { OnOk result (IsBare known.new) }
{
    for constant in constants {
        push_constant(alloc, known, constant)?;
    }
    Ok(())
}

/// The constants, and behind them an item of a contract, where it is one.
fn push_item<'a>(
    alloc: Global,
    known: &mut Known<'a>,
    item: &'a ContractItem,
) -> Result<(), AllocError>
    requires { IsBare known.old }
    ensures values { OnOk result (values_seen known.new
        ≡ small_values (values_seen known.old) (contract_statement_constants (contract_item_view item.now ∷ []))) }
    ensures bare { OnOk result (IsBare known.new) }
{
    if let ContractItem::Constant(constant) = item {
        push_constant(alloc, known, constant)?;
    }
    Ok(())
}

/// The constants, and behind them those of a contract.
fn push_items<'a>(
    alloc: Global,
    known: &mut Known<'a>,
    items: &'a [ContractItem],
) -> Result<(), AllocError>
    requires { IsBare known.old }
    ensures values { OnOk result (values_seen known.new
        ≡ small_values (values_seen known.old) (contract_statement_constants (map contract_item_view items.now))) }
    ensures bare { OnOk result (IsBare known.new) }
{
    for item in items {
        push_item(alloc, known, item)?;
    }
    Ok(())
}

/// The constants, and behind them a declaration, where it is one.
fn push_decl<'a>(alloc: Global, known: &mut Known<'a>, decl: &'a Decl) -> Result<(), AllocError>
    requires { IsBare known.old }
    ensures values { OnOk result (values_seen known.new
        ≡ small_values (values_seen known.old) (program_constants (decl_view decl.now ∷ []))) }
    ensures bare { OnOk result (IsBare known.new) }
{
    if let Decl::Constant(constant) = decl {
        push_constant(alloc, known, constant)?;
    }
    Ok(())
}

/// The constants of a program.
pub(crate) fn outer_constants(alloc: Global, program: &Program) -> Result<Known<'_>, AllocError>
    ensures values { IfOk result (λ k. values_seen k ≡ small_values [] (program_constants (program_view program.now))) }
    ensures bare { IfOk result (λ k. IsBare k) }
{
    let mut known = none_known(alloc);
    for decl in &program.decls {
        push_decl(alloc, &mut known, decl)?;
    }
    Ok(known)
}

/// The same constants.
fn copied<'a>(alloc: Global, outer: &[Fixed<'a>]) -> Result<Known<'a>, AllocError>
    ensures values { IfOk result (λ k. values_seen k ≡ map fixed_view outer.now) }
    ensures bare { IfOk result (λ k. IsBare k) }
{
    let mut known = none_known(alloc);
    for fixed in outer {
        push(&mut known, fixed.name, fixed.value)?;
    }
    Ok(known)
}

/// The constants of a program, and behind them those of a declaration.
pub(crate) fn constants_of<'a>(
    alloc: Global,
    outer: &[Fixed<'a>],
    owner: Owner<'a>,
) -> Result<Known<'a>, AllocError>
    ensures values { IfOk result (λ k. values_seen k
        ≡ small_values (map fixed_view outer.now) (own_constants (owner_view owner.entry))) }
    ensures bare { IfOk result (λ k. IsBare k) }
{
    let mut known = copied(alloc, outer)?;
    push_items(alloc, &mut known, owner.contract())?;
    push_constants(alloc, &mut known, owner.constants())?;
    Ok(known)
}

/// The values of constants by their names.
pub(crate) fn values_by_name<'a>(
    alloc: Global,
    values: &[Fixed<'a>],
) -> Result<IndexMap<&'a str, Constant>, AllocError>
    ensures { IfOk result (λ m. (x : Name) → option_map constant_view (by_name m x)
        ≡ lookup (bytes_eq x) (map fixed_view values.now)) }
{
    let mut table = IndexMap::new(alloc);
    for fixed in values {
        note(&mut table, fixed.name, fixed.value)?;
    }
    Ok(table)
}
