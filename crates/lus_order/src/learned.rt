//! What is known of all declarations of a program, made callees first.

ghost use Rattle.std.specs.Prelude.{◌≡◌, ◌++◌, ◌∷◌, [], Contains, IfOk, IfSome, MatchOption, None, false, map, option_map};
ghost use Rattle.std.specs.List.{find};
ghost use Rattle.lus_tree.specs.View.{program_view};
ghost use Rattle.lus_meaning.specs.Depends.{named_in};
ghost use Rattle.lus_meaning.specs.Grammatical.{IsGrammatical};
ghost use Rattle.lus_meaning.specs.Refusals.{IsTyped};
ghost use Rattle.lus_meaning.specs.Scene.{variables};
ghost use Rattle.lus_meaning.specs.WellMade.{AreDistinct};
ghost use Rattle.lus_limits.specs.Calls.{call_view};
ghost use Rattle.lus_order.specs.Declarations.{IsNextOf, are_known, declared_view, is_next};
ghost use Rattle.lus_order.specs.Learned.{IsAdded, IsConsistent, IsLearned, IsLibraryOf, flags_of, names_known};
ghost use Rattle.lus_order.specs.Library.{known_view, library_view};
ghost use Rattle.way_laws.specs.Summaries.{IsSummary};
ghost use Rattle.lus_streams.specs.Owner.{owner_view};
ghost use Rattle.lus_order.specs.Streams.{names_of};

use crate::callees_first::callees_first;
use crate::declarations::{Declaration, owners_of, with_calls};
use crate::library::{Known, Library};
use crate::own::own_of;
use crate::setting::Callees;
use crate::summary::known_of;
use lus_limits::Call;
use lus_streams::owner::Owner;
use lus_tree::Program;
use name_table::NameTable;
use std::alloc::{AllocError, Global};

/// For each input whether some output reads it.
fn flags_of(alloc: Global, known: &Known<'_>) -> Result<Vec<bool>, AllocError>
    ensures { IfOk result (λ v. v.items ≡ flags_of (known_view known.now)) }
{
    let mut flags = Vec::new(alloc);
    for input in &known.inputs {
        flags.push(known.reads.has(*input))?;
    }
    Ok(flags)
}

impl<'a> Library<'a> {
    /// Of no declaration.
    fn new(alloc: Global) -> Self
        ensures { (names_known result ≡ []) × IsConsistent result }
    {
        Library {
            callees: Callees {
                names: NameTable::new(alloc),
                flags: Vec::new(alloc),
            },
            summaries: Vec::new(alloc),
        }
    }

    /// Adds what is known of a declaration that is new.
    fn add(&mut self, alloc: Global, name: &str, known: Known<'a>) -> Result<(), AllocError>
        requires { named_in name.now (names_known self.old) ≡ false }
        ensures { IfOk result (λ _. IsAdded self.old self.new name.now (known_view known.entry)) }
    {
        let flags = flags_of(alloc, &known)?;
        self.callees.names.add(alloc, name)?;
        self.callees.flags.push(flags)?;
        self.summaries.push(known)?;
        Ok(())
    }
}

/// Whether all that these call is known.
fn are_known(names: &NameTable, calls: &[Call<'_>]) -> bool
    ensures { result ≡ are_known names.now (map call_view calls.now) }
{
    for call in calls {
        if !names.has(&call.callee.text) {
            return false;
        }
    }
    true
}

/// Whether a declaration is not known, and all that it calls and imports is.
fn is_next(names: &NameTable, declared: &Declaration<'_>) -> bool
    ensures { result ≡ is_next names.now (declared_view declared.now) }
{
    !names.has(declared.owner.name()) && are_known(names, &declared.calls)
}

/// The first declaration that is not known, and of which all that it calls and imports is.
fn first_next<'a>(names: &NameTable, all: &[Declaration<'a>]) -> Option<Owner<'a>>
    ensures { option_map owner_view result ≡ option_map (λ d. d.0)
        (find (is_next names.now) (map declared_view all.now)) }
{
    for declared in all {
        if is_next(names, declared) {
            return Some(declared.owner);
        }
    }
    None
}

/// The declaration whose turn it is in an order.
fn at_turn<'b, 'a>(
    all: &'b [Declaration<'a>],
    order: &[usize],
    turn: usize,
) -> Option<&'b Declaration<'a>>
    ensures { IfSome result (λ d. Contains (map declared_view all.now) (declared_view d.now)) }
{
    let number = *order.get(turn)?;
    all.get(number)
}

/// A declaration that is not known, and of which all that it calls and imports is: that whose turn it is in
/// an order, or else the first one.
fn next_of<'a>(
    names: &NameTable,
    all: &[Declaration<'a>],
    order: &[usize],
    turn: &mut usize,
) -> Option<Owner<'a>>
    ensures { MatchOption result (find (is_next names.now) (map declared_view all.now) ≡ None)
        (λ o. IsNextOf names.now (map declared_view all.now) (owner_view o)) }
{
    match at_turn(all, order, *turn) {
        Some(declared) if is_next(names, declared) => {
            *turn = turn.saturating_add(1);
            Some(declared.owner)
        }
        _ => first_next(names, all),
    }
}

/// What is to be known of a declaration, by what is known of those that it calls and imports.
fn known_by<'a>(
    alloc: Global,
    library: &Library<'a>,
    owner: Owner<'a>,
) -> Result<Known<'a>, AllocError>
    requires consistent { IsConsistent library.now }
    requires distinct { AreDistinct (names_of (variables (owner_view owner))) }
    ensures { IfOk result (λ k. IsSummary (owner_view owner.entry) (library_view library.now) (known_view k)) }
{
    let mut own = own_of(alloc, library, owner)?;
    let known = known_of(alloc, &mut own, owner)?;
    Ok(known)
}

/// Adds a declaration that is new, by what is known of those that it calls and imports.
fn learn<'a>(alloc: Global, library: &mut Library<'a>, owner: Owner<'a>) -> Result<(), AllocError>
    requires consistent { IsConsistent library.old }
    requires distinct { AreDistinct (names_of (variables (owner_view owner))) }
    requires new { named_in (owner_view owner).name.text (names_known library.old) ≡ false }
    ensures { IfOk result (λ _. IsLearned (owner_view owner.entry) library.old library.new) }
{
    let known = known_by(alloc, library, owner)?;
    library.add(alloc, owner.name(), known)?;
    Ok(())
}

/// What is known of the declarations of a program, made callees first, so that nothing is missing.
///
/// # Errors
///
/// Want of memory.
pub(crate) fn library_of(alloc: Global, program: &Program) -> Result<Library<'_>, AllocError>
    requires grammatical { IsGrammatical (program_view program.now) }
    requires typed { IsTyped (program_view program.now) }
    ensures { IfOk result (λ l. IsLibraryOf (program_view program.now) l) }
{
    let owners = owners_of(alloc, program)?;
    let all = with_calls(alloc, &owners)?;
    let order = callees_first(alloc, &all)?;
    let mut turn = 0;
    let mut library = Library::new(alloc);
    while let Some(owner) = next_of(&library.callees.names, &all, &order, &mut turn) {
        learn(alloc, &mut library, owner)?;
    }
    Ok(library)
}
