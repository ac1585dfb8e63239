//! The faults of an import of a contract.

ghost use Rattle.std.specs.Prelude.{◌≡◌, ◌==◌, ◌&&◌, [], cond, length, Some, map, flat_map, option_map};
ghost use Rattle.lus_tree.specs.View.{contract_node_view, expr_view, param_view, word_view};
ghost use Rattle.lus_meaning.specs.ExpressionFaults.{arguments_fit, needs_sort, sorts_fit};
ghost use Rattle.lus_tree.specs.Reason.{type_clash};
ghost use Rattle.lus_meaning.specs.Faults.{differ, if_so};
ghost use Rattle.lus_meaning.specs.Scope.{sort_of_entry};
ghost use Rattle.lus_meaning.specs.NameFaults.{import_fits, output_known, output_sorts};
ghost use Rattle.lus_scopes.specs.Least.{least_view, noted_all};
ghost use Rattle.lus_scopes.specs.Scopes.{scope_view};

use crate::least::Least;
use crate::lookup::{is_output, looked_up};
use crate::notes::differ;
use crate::scope::Scope;
use crate::sorts::sort_of;
use lus_tree::{ContractNode, Expr, Param, PlacedName, Sort, What};

/// Notes a name that is no output of the declaration.
fn note_output(scope: &Scope<'_>, least: &mut Least, word: &PlacedName)
    ensures { least_view least.new ≡ noted_all (least_view least.old)
        (output_known (scope_view scope.now) (word_view word.now)) }
{
    let known = is_output(scope, &word.text);
    least.note_if(!known, What::NameUnknown, word.at);
}

/// Notes the names that are no outputs of the declaration.
#[tactic(auto, using(crate::proofs::Leasts::noted_append))]
pub(crate) fn note_outputs(scope: &Scope<'_>, least: &mut Least, words: &[PlacedName])
    ensures { least_view least.new ≡ noted_all (least_view least.old)
        (flat_map (output_known (scope_view scope.now)) (map word_view words.now)) }
{
    for word in words {
        note_output(scope, least, word);
    }
}

/// Notes an expression of another type than is needed.
#[tactic(auto, using(crate::proofs::Placed::begin_of))]
fn note_sort(scope: &Scope<'_>, least: &mut Least, sort: Sort, e: &Expr)
    ensures { least_view least.new ≡ noted_all (least_view least.old)
        (needs_sort (scope_view scope.now) sort (expr_view e.now)) }
{
    let clash = differ(Some(sort), sort_of(scope, e));
    least.note_if(clash, What::TypeClash, e.from);
}

/// Notes the expressions of other types than the streams that they go to.
#[tactic(auto, using(crate::proofs::Leasts::noted_append))]
fn note_arguments(scope: &Scope<'_>, least: &mut Least, streams: &[Param], arguments: &[Expr])
    ensures { least_view least.new ≡ noted_all (least_view least.old)
        (sorts_fit (scope_view scope.now) (map param_view streams.now) (map expr_view arguments.now)) }
{
    let mut left = arguments;
    for stream in streams {
        match left {
            [] => return,
            [argument, later @ ..] => {
                note_sort(scope, least, stream.sort, argument);
                left = later;
            }
        }
    }
}

/// Notes a name of another type than is needed.
fn note_word(scope: &Scope<'_>, least: &mut Least, sort: Sort, word: &PlacedName)
    ensures { least_view least.new ≡ noted_all (least_view least.old)
        (if_so (differ (Some sort) (sort_of_entry (scope_view scope.now) (word_view word.now).text))
        type_clash (word_view word.now).at) }
{
    let clash = differ(Some(sort), looked_up(scope, &word.text).sort);
    least.note_if(clash, What::TypeClash, word.at);
}

/// Notes the names of other types than the streams that they are.
#[tactic(auto, using(crate::proofs::Leasts::noted_append))]
fn note_words(scope: &Scope<'_>, least: &mut Least, streams: &[Param], words: &[PlacedName])
    ensures { least_view least.new ≡ noted_all (least_view least.old)
        (output_sorts (scope_view scope.now) (map param_view streams.now) (map word_view words.now)) }
{
    let mut left = words;
    for stream in streams {
        match left {
            [] => return,
            [word, later @ ..] => {
                note_word(scope, least, stream.sort, word);
                left = later;
            }
        }
    }
}

/// Notes the arguments of other types than the inputs, where there are as many.
fn note_taken(scope: &Scope<'_>, least: &mut Least, streams: &[Param], arguments: &[Expr])
    ensures { least_view least.new ≡ noted_all (least_view least.old)
        (arguments_fit (scope_view scope.now) (map param_view streams.now) (map expr_view arguments.now)) }
{
    if streams.len() == arguments.len() {
        note_arguments(scope, least, streams, arguments);
    }
}

/// Notes the outputs of other types than those of the contract, where there are as many.
fn note_given(scope: &Scope<'_>, least: &mut Least, streams: &[Param], words: &[PlacedName])
    ensures { least_view least.new ≡ noted_all (least_view least.old)
        (cond (length (map param_view streams.now) == length (map word_view words.now))
        (output_sorts (scope_view scope.now) (map param_view streams.now) (map word_view words.now)) []) }
{
    if streams.len() == words.len() {
        note_words(scope, least, streams, words);
    }
}

/// Whether an import has as many arguments and outputs as the contract has.
fn counts_fit(contract: &ContractNode, arguments: &[Expr], outputs: &[PlacedName]) -> bool
    ensures { result ≡ (length (contract_node_view contract.now).inputs == length (map expr_view arguments.now))
        && (length (contract_node_view contract.now).outputs == length (map word_view outputs.now)) }
{
    contract.inputs.len() == arguments.len() && contract.outputs.len() == outputs.len()
}

/// Notes what is wrong between an import and its contract.
#[tactic(auto, using(crate::proofs::Leasts::noted_append))]
fn note_contract(
    scope: &Scope<'_>,
    least: &mut Least,
    word: &PlacedName,
    arguments: &[Expr],
    outputs: &[PlacedName],
    contract: &ContractNode,
)
    ensures { least_view least.new ≡ noted_all (least_view least.old)
        (import_fits (scope_view scope.now) (word_view word.now) (map expr_view arguments.now)
        (map word_view outputs.now) (Some (contract_node_view contract.now))) }
{
    let fits = counts_fit(contract, arguments, outputs);
    least.note_if(!fits, What::ArityClash, word.at);
    note_taken(scope, least, &contract.inputs, arguments);
    note_given(scope, least, &contract.outputs, outputs);
}

/// Notes what is wrong between an import and the contract of its name.
pub(crate) fn note_fit(
    scope: &Scope<'_>,
    least: &mut Least,
    word: &PlacedName,
    arguments: &[Expr],
    outputs: &[PlacedName],
    contract: Option<&ContractNode>,
)
    ensures { least_view least.new ≡ noted_all (least_view least.old)
        (import_fits (scope_view scope.now) (word_view word.now) (map expr_view arguments.now)
        (map word_view outputs.now) (option_map (λ n. contract_node_view n.now) contract.entry)) }
{
    match contract {
        None => least.note(What::NameUnknown, word.at),
        Some(contract) => note_contract(scope, least, word, arguments, outputs, contract),
    }
}
