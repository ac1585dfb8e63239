//! Names and modes of a scope.

ghost use Rattle.std.specs.Prelude.{◌≡◌, ◌&&◌, Bool, cond, false, Some, filter, find, option_map};
ghost use Rattle.std.specs.Str.{bytes_eq};
ghost use Rattle.lus_tree.specs.View.{word_view};
ghost use Rattle.lus_meaning.specs.Depends.{named_in};
ghost use Rattle.lus_meaning.specs.Scope.{entry_of, holds_of, is_constant_name, is_constant_role, is_ghost_role, is_known, is_output_role, name_weight, size_of, sort_of_entry, value_of_entry, value_where_known, worth};
ghost use Rattle.lus_meaning.specs.ExpressionFaults.{has_one, is_imported_mode, mode_is_known};
ghost use Rattle.lus_scopes.specs.Counts.{all_of};
ghost use Rattle.lus_scopes.specs.Cut.{cut_worth};
ghost use Rattle.lus_scopes.specs.Scopes.{entry_view, is_reached, layer_view, scope_view};
ghost use Rattle.lus_scopes.specs.Worth.{worth_view};

use crate::counted::Counted;
use crate::layer::Layer;
use crate::scope::{Entry, Extent, Meaning, Role, Scope};
use crate::worth::Worth;
use crate::worths::{of_constant, weighing};
use lus_tree::{PlacedName, Sort};

/// What the rules ask of a name.
#[derive(Clone, Copy)]
pub(crate) struct Known {
    /// Whether it may be used at the place.
    pub(crate) known: bool,
    pub(crate) constant: bool,
    pub(crate) sort: Option<Sort>,
    pub(crate) worth: Worth,
}

/// The first name of a list that is this one.
fn entry<'a>(layer: Layer<'a>, name: &str) -> Option<Entry<'a>>
    ensures { (hidden : Bool) → option_map (entry_view layer.entry.extent hidden) result
        ≡ find (λ e. bytes_eq name.now e.word.text) (layer_view layer.entry hidden) }
{
    layer.table.get(name).copied()
}

/// A name, and which constants of its list may be used.
#[derive(Clone, Copy)]
struct Placed<'a> {
    found: Entry<'a>,
    extent: Extent,
}

/// What a name means at a place, where it means something.
#[tactic(auto, using(crate::proofs::Behind::found_behind))]
fn meaning_of<'a>(scope: &Scope<'a>, name: &str) -> Option<Placed<'a>>
    ensures { option_map (λ p. entry_view p.extent scope.now.hidden p.found) result
        ≡ entry_of (scope_view scope.now) name.now }
{
    match entry(scope.own, name) {
        Some(found) => Some(Placed {
            found,
            extent: scope.own.extent,
        }),
        None => match entry(scope.outer, name) {
            Some(found) => Some(Placed {
                found,
                extent: scope.outer.extent,
            }),
            None => None,
        },
    }
}

/// Whether a constant behind so many others may be used.
fn is_reached(extent: Extent, order: usize) -> bool
    ensures { result ≡ is_reached extent order }
{
    match extent {
        Extent::All => true,
        Extent::First(count) => order < count,
    }
}

/// What the rules ask of a name that means this.
fn asked_of(placed: Placed<'_>, hidden: bool) -> Known
    ensures known { result.known ≡ (entry_view placed.entry.extent hidden placed.entry.found).known }
    ensures constant { result.constant
        ≡ is_constant_role (entry_view placed.entry.extent hidden placed.entry.found).role }
    ensures sort { result.sort ≡ (entry_view placed.entry.extent hidden placed.entry.found).sort }
    ensures worth { worth_view result.worth
        ≡ cut_worth (worth (value_where_known (entry_view placed.entry.extent hidden placed.entry.found))
        (cond (is_constant_role (entry_view placed.entry.extent hidden placed.entry.found).role)
        (size_of (value_where_known (entry_view placed.entry.extent hidden placed.entry.found))) (Some 1))) }
{
    match placed.found.meaning {
        Meaning::Stream(role, param) => Known {
            known: !(hidden && role == Role::Local),
            constant: false,
            sort: Some(param.sort),
            worth: weighing(Some(1)),
        },
        Meaning::Constant(_, sort, value) => {
            let known = is_reached(placed.extent, placed.found.order);
            Known {
                known,
                constant: true,
                sort,
                worth: of_constant(if known { value } else { None }),
            }
        }
    }
}

/// What a scope knows of a name.
pub(crate) fn looked_up(scope: &Scope<'_>, name: &str) -> Known
    ensures known { result.known ≡ is_known (scope_view scope.now) name.now }
    ensures constant { result.constant ≡ is_constant_name (scope_view scope.now) name.now }
    ensures sort { result.sort ≡ sort_of_entry (scope_view scope.now) name.now }
    ensures worth { worth_view result.worth ≡ cut_worth (worth (value_of_entry (scope_view scope.now) name.now)
        (name_weight (scope_view scope.now) name.now)) }
{
    match meaning_of(scope, name) {
        None => Known {
            known: false,
            constant: false,
            sort: None,
            worth: weighing(Some(1)),
        },
        Some(placed) => asked_of(placed, scope.hidden),
    }
}

/// Whether a name is an output of the declaration.
pub(crate) fn is_output(scope: &Scope<'_>, name: &str) -> bool
    ensures { result ≡ holds_of (λ e. is_output_role e.role) (scope_view scope.now) name.now }
{
    match meaning_of(scope, name) {
        None => false,
        Some(placed) => matches!(placed.found.meaning, Meaning::Stream(Role::Output, _)),
    }
}

/// Whether a name is a ghost variable.
pub fn is_ghost(scope: &Scope<'_>, name: &str) -> bool
    ensures { result ≡ holds_of (λ e. is_ghost_role e.role) (scope_view scope.now) name.now }
{
    match meaning_of(scope, name) {
        None => false,
        Some(placed) => matches!(placed.found.meaning, Meaning::Stream(Role::Ghost, _)),
    }
}

/// Whether these names have this one.
fn has(names: Option<&Counted<'_>>, name: &str) -> bool
    ensures { result ≡ named_in name.now (all_of names.entry) }
{
    match names {
        Some(names) => names.has(name),
        None => false,
    }
}

/// Whether these names have this one exactly once.
fn has_once(names: Option<&Counted<'_>>, name: &str) -> bool
    ensures { result ≡ has_one (filter (bytes_eq name.now) (all_of names.entry)) }
{
    match names {
        Some(names) => names.has_once(name),
        None => false,
    }
}

/// Whether a contract is imported exactly once before, and has the mode.
fn is_imported_mode(scope: &Scope<'_>, contract_name: &str, mode: &str) -> bool
    ensures { result ≡ is_imported_mode (scope_view scope.now) contract_name.now mode.now }
{
    has_once(scope.imports, contract_name) && scope.declarations.has_mode(contract_name, mode)
}

/// Whether a mode may be used.
pub(crate) fn is_mode(scope: &Scope<'_>, contract: &Option<PlacedName>, mode: &PlacedName) -> bool
    ensures { result ≡ mode_is_known (scope_view scope.now) (option_map word_view contract.now) (word_view mode.now) }
{
    match contract {
        None => has(scope.modes, &mode.text),
        Some(contract) => is_imported_mode(scope, &contract.text, &mode.text),
    }
}
