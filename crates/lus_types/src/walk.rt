//! The faults of all declarations of a program.

ghost use Rattle.std.specs.Prelude.{◌≡◌, ◌++◌, ◌∷◌, [], false, IfOk, map};
ghost use Rattle.lus_tree.specs.View.{decl_view, program_view};
ghost use Rattle.lus_meaning.specs.Scope.{constants_declared, entries_from};
ghost use Rattle.lus_meaning.specs.NameFaults.{typing_faults};
ghost use Rattle.lus_types.specs.Circles.{IsGraph};
ghost use Rattle.lus_types.specs.Declarations.{alone_from};
ghost use Rattle.lus_types.specs.Entries.{AreOrdered};
ghost use Rattle.lus_types.specs.Firsts.{circle_faults};
ghost use Rattle.lus_scopes.specs.declared.scope.Extent.TheVariants.{All};
ghost use Rattle.lus_scopes.specs.Least.{IsLeast, least_view};
ghost use Rattle.lus_scopes.specs.Notes.{Notes};
ghost use Rattle.lus_scopes.specs.Scopes.{entry_view, layer_view};
ghost use Rattle.lus_tree.specs.Tree.{Name, Program as ProgramTree};
ghost use Rattle.lus_types.specs.Homes.{declared_view};
ghost use Rattle.lus_types.specs.Names.{HaveNames, found_in, known_among, names_from};

use crate::circles::{FirstCircle, first_circle};
use crate::component::{constants_after, declaration};
use crate::entries::entries;
use crate::naming::Declared;
use crate::program_rules::{constant_words, declarations_twice, note_no_node};
use crate::recursion::{Graph, graph_of, recursion};
use crate::repeated::texts_of;
use crate::setting::Setting;
use crate::tables::{Table, Tables, declared_names, table_of};
use lus_scopes::declarations::Declarations;
use lus_scopes::layer::Layer;
use lus_scopes::least::Least;
use lus_scopes::names::Names;
use lus_tree::{Decl, Program, What};
use std::alloc::{AllocError, Global};

/// The names, and behind them a constant of the program.
fn push_constant<'a>(names: &mut Vec<Declared<'a>>, decl: &'a Decl) -> Result<(), AllocError>
    ensures { IfOk result (λ _. map declared_view names.new.items ≡ map declared_view names.old.items
        ++ constants_declared (decl_view decl.now ∷ [])) }
{
    if let Decl::Constant(definition) = decl {
        names.push(Declared::Fixed(definition))?;
    }
    Ok(())
}

/// The constants of a program.
fn constants_declared(alloc: Global, program: &Program) -> Result<Vec<Declared<'_>>, AllocError>
    ensures { IfOk result (λ v. map declared_view v.items ≡ constants_declared (program_view program.now)) }
{
    let mut names = Vec::new(alloc);
    for decl in &program.decls {
        push_constant(&mut names, decl)?;
    }
    Ok(names)
}

/// Notes the faults of declarations, but for those of circles, and adds tables of their names to none.
fn push_tables(
    alloc: Global,
    setting: &Setting<'_, '_>,
    least: &mut Least,
    tables: &mut Vec<Table>,
    decls: &[Decl],
) -> Result<(), AllocError>
    requires { tables.old.items ≡ [] }
    ensures noted { IfOk result (λ _. Notes (least_view least.old) (least_view least.new)
        (alone_from (program_view setting.now.declarations.now) 0 (map decl_view decls.now))) }
    ensures names { IfOk result (λ _. (x : Name) → map (λ t. found_in t x) tables.new.items
        ≡ map (λ es. known_among es x)
        (names_from (program_view setting.now.declarations.now) 0 (map decl_view decls.now))) }
{
    let mut known = 0;
    for decl in decls {
        tables.push(declaration(alloc, setting, least, known, decl)?)?;
        known = constants_after(known, decl);
    }
    Ok(())
}

/// Notes the faults of declarations, but for those of circles, and gives tables of their names.
fn all_declarations(
    alloc: Global,
    setting: &Setting<'_, '_>,
    least: &mut Least,
    decls: &[Decl],
) -> Result<Vec<Table>, AllocError>
    ensures noted { IfOk result (λ _. Notes (least_view least.old) (least_view least.new)
        (alone_from (program_view setting.now.declarations.now) 0 (map decl_view decls.now))) }
    ensures names { IfOk result (λ ts. (x : Name) → map (λ t. found_in t x) ts.items
        ≡ map (λ es. known_among es x)
        (names_from (program_view setting.now.declarations.now) 0 (map decl_view decls.now))) }
{
    let mut tables = Vec::new(alloc);
    push_tables(alloc, setting, least, &mut tables, decls)?;
    Ok(tables)
}

/// Notes the faults of all declarations of a program, but for those of circles, by what its
/// constants mean, and gives a table of the names of each.
fn with_constants<'a>(
    alloc: Global,
    declarations: &'a Declarations<'a>,
    constants: Layer<'a>,
    nothing: Layer<'a>,
    least: &mut Least,
) -> Result<Vec<Table>, AllocError>
    requires entries { map (entry_view All false) constants.entries.now
        ≡ entries_from (program_view declarations.now) [] [] (constants_declared (program_view declarations.now)) }
    requires order { AreOrdered 0 constants.entries.now }
    requires nothing { layer_view nothing false ≡ [] }
    ensures noted { IfOk result (λ _. Notes (least_view least.old) (least_view least.new)
        (alone_from (program_view declarations.now) 0 (program_view declarations.now))) }
    ensures names { IfOk result (λ ts. (x : Name) → map (λ t. found_in t x) ts.items
        ≡ map (λ es. known_among es x) (names_from (program_view declarations.now) 0 (program_view declarations.now))) }
{
    let words = constant_words(alloc, declarations.program())?;
    let seen = texts_of(alloc, &words)?;
    let setting = Setting::new(declarations, constants, nothing, &words, &seen);
    all_declarations(alloc, &setting, least, &declarations.program().decls)
}

/// What the constants of a program mean.
fn constants_of<'a>(
    alloc: Global,
    declarations: &'a Declarations<'a>,
    nothing: Layer<'a>,
) -> Result<Names<'a>, AllocError>
    requires { layer_view nothing false ≡ [] }
    ensures entries { IfOk result (λ n. map (entry_view All false) n
        ≡ entries_from (program_view declarations.now) [] [] (constants_declared (program_view declarations.now))) }
    ensures order { IfOk result (λ n. AreOrdered 0 n) }
{
    let declared = constants_declared(alloc, declarations.program())?;
    entries(alloc, declarations, nothing, &declared)
}

/// Notes the faults of all declarations of a program, but for those of circles, by what its
/// constants mean, and gives tables of its names.
fn with_tables<'a>(
    alloc: Global,
    declarations: &'a Declarations<'a>,
    constants: &'a Names<'a>,
    nothing: Layer<'a>,
    least: &mut Least,
) -> Result<Tables, AllocError>
    requires entries { map (entry_view All false) constants.now
        ≡ entries_from (program_view declarations.now) [] [] (constants_declared (program_view declarations.now)) }
    requires order { AreOrdered 0 constants.now }
    requires nothing { layer_view nothing false ≡ [] }
    ensures names { IfOk result (λ t. HaveNames (program_view declarations.now) t) }
    ensures noted { IfOk result (λ _. Notes (least_view least.old) (least_view least.new)
        (alone_from (program_view declarations.now) 0 (program_view declarations.now))) }
{
    let own = with_constants(alloc, declarations, constants.layer(), nothing, least)?;
    let declared = declared_names(alloc, &declarations.program().decls)?;
    let constants = table_of(alloc, constants.entries())?;
    Ok(Tables {
        own,
        constants,
        declared,
    })
}

/// Notes the faults of all declarations of a program, but for those of circles, and gives tables of its
/// names.
fn alone(
    alloc: Global,
    declarations: &Declarations<'_>,
    least: &mut Least,
) -> Result<Tables, AllocError>
    ensures names { IfOk result (λ t. HaveNames (program_view declarations.now) t) }
    ensures noted { IfOk result (λ _. Notes (least_view least.old) (least_view least.new)
        (alone_from (program_view declarations.now) 0 (program_view declarations.now))) }
{
    let none = Names::new(alloc);
    let nothing = none.layer();
    let constants = constants_of(alloc, declarations, nothing)?;
    with_tables(alloc, declarations, &constants, nothing, least)
}

/// Notes the calls and imports that are on circles, those of each declaration by themselves.
fn each_circle(alloc: Global, graph: &Graph, least: &mut Least) -> Result<(), AllocError>
    ensures { IfOk result (λ _. (p : ProgramTree) → IsGraph p graph.now
        → Notes (least_view least.old) (least_view least.new) (circle_faults p)) }
{
    for number in 0..graph.rows.len() {
        recursion(alloc, graph, least, number)?;
    }
    Ok(())
}

/// Notes the calls and imports of a program that are on circles of declarations.
#[tactic(auto, using(crate::proofs::Levels::none_noted, crate::proofs::Levels::first_noted))]
fn circles(
    alloc: Global,
    declarations: &Declarations<'_>,
    least: &mut Least,
) -> Result<(), AllocError>
    ensures { IfOk result (λ _. Notes (least_view least.old) (least_view least.new)
        (circle_faults (program_view declarations.now))) }
{
    let graph = graph_of(alloc, declarations)?;
    match first_circle(alloc, &graph)? {
        FirstCircle::Nowhere => Ok(()),
        FirstCircle::At(at) => {
            least.note(What::NodeRecursion, at);
            Ok(())
        }
        FirstCircle::Unclear => each_circle(alloc, &graph, least),
    }
}

/// The least of a program's faults of names, types and numbers, and tables of its names.
#[derive(Drop)]
pub(crate) struct Checked {
    pub(crate) least: Least,
    pub(crate) tables: Tables,
}

/// What is found in a program by its declarations.
fn least_fault(alloc: Global, declarations: &Declarations<'_>) -> Result<Checked, AllocError>
    ensures least { IfOk result (λ f. IsLeast (least_view f.least) (typing_faults (program_view declarations.now))) }
    ensures names { IfOk result (λ f. HaveNames (program_view declarations.now) f.tables) }
{
    let mut least = Least::new();
    note_no_node(&mut least, declarations.program());
    declarations_twice(alloc, &mut least, declarations.program())?;
    let tables = alone(alloc, declarations, &mut least)?;
    circles(alloc, declarations, &mut least)?;
    Ok(Checked { least, tables })
}

/// What is found in a program.
///
/// # Errors
///
/// Want of memory.
pub(crate) fn first_fault(alloc: Global, program: &Program) -> Result<Checked, AllocError>
    ensures least { IfOk result (λ f. IsLeast (least_view f.least) (typing_faults (program_view program.now))) }
    ensures names { IfOk result (λ f. HaveNames (program_view program.now) f.tables) }
{
    let declarations = Declarations::of(alloc, program)?;
    least_fault(alloc, &declarations)
}
