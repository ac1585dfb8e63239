//! Faults of a call by its callee, and what is known of a name.

ghost use Rattle.std.specs.Prelude.{◌≡◌, map, option_map, slice_get};
ghost use Rattle.lus_tree.specs.View.{node_view, param_view, word_view};
ghost use Rattle.lus_scopes.specs.Least.{least_view, noted_all};
ghost use Rattle.lus_scopes.specs.Walk.{as_many, call_own, default_own, inputs_for, outputs_for};

use crate::least::Least;
use lus_tree::{Node, Param, PlacedName, What};

/// The streams that values go to, where there are as many.
fn as_many(streams: &[Param], count: usize) -> &[Param]
    ensures { map param_view result.now ≡ as_many (map param_view streams.now) count }
{
    if streams.len() == count { streams } else { &[] }
}

/// The inputs that so many arguments go to.
pub(crate) fn inputs_for(callee: Option<&Node>, count: usize) -> &[Param]
    ensures { map param_view result.now ≡ inputs_for (option_map (λ n. node_view n.now) callee.entry) count }
{
    match callee {
        Some(node) => as_many(&node.inputs, count),
        None => &[],
    }
}

/// The outputs that so many defaults go to.
pub(crate) fn outputs_for(callee: Option<&Node>, count: usize) -> &[Param]
    ensures { map param_view result.now ≡ outputs_for (option_map (λ n. node_view n.now) callee.entry) count }
{
    match callee {
        Some(node) => as_many(&node.outputs, count),
        None => &[],
    }
}

/// Notes a callee that isn't there, one with another number of inputs than there are arguments, and
/// one with several outputs in a part of an expression.
#[tactic(auto, using(crate::proofs::Leasts::noted_append))]
pub(crate) fn note_call(
    least: &mut Least,
    whole_side: bool,
    word: &PlacedName,
    count: usize,
    callee: Option<&Node>,
)
    ensures { least_view least.new ≡ noted_all (least_view least.old)
        (call_own whole_side (word_view word.now) count (option_map (λ n. node_view n.now) callee.entry)) }
{
    match callee {
        None => least.note(What::NameUnknown, word.at),
        Some(node) => {
            least.note_if(node.inputs.len() != count, What::ArityClash, word.at);
            let several = !whole_side && node.outputs.len() != 1;
            least.note_if(several, What::ArityClash, word.at);
        }
    }
}

/// Notes a callee with another number of outputs than there are defaults.
pub(crate) fn note_defaults(
    least: &mut Least,
    word: &PlacedName,
    count: usize,
    callee: Option<&Node>,
)
    ensures { least_view least.new ≡ noted_all (least_view least.old)
        (default_own (word_view word.now) count (option_map (λ n. node_view n.now) callee.entry)) }
{
    if let Some(node) = callee {
        least.note_if(node.outputs.len() != count, What::ArityClash, word.at);
    }
}

/// The stream of that number, where there is one.
pub(crate) fn stream_at(streams: &[Param], number: usize) -> Option<&Param>
    ensures { option_map (λ v. param_view v.now) result ≡ slice_get (map param_view streams.now) number }
{
    if number < streams.len() {
        Some(&streams[number])
    } else {
        None
    }
}
