//! Reads the items of a mode.

ghost use Rattle.std.specs.Prelude.{◌≡◌, ◌<◌, ◌≤◌, length, map, IfOk, IfErr, Some};
ghost use Rattle.lus_tree.specs.View.{named_view};
ghost use Rattle.lus_grammar.specs.Stream.{stream};
ghost use Rattle.lus_grammar.specs.Phrase as P;
ghost use Rattle.lus_grammar.specs.Phrase.{part, repeated};
ghost use Rattle.lus_grammar.specs.Source.{AreTokens};
ghost use Rattle.contract_reader.specs.Begin.{mode_item_class};
ghost use Rattle.contract_reader.specs.Values.{mode_items_of};
ghost use Rattle.lus_reader.specs.Told.{ReadsFrom, RefusesFrom};
ghost use Rattle.contract_reader.specs.Told.{GrowsModeItems};

use crate::begin::{ModeItemStart, mode_item_start};
use lus_lexer::Token;
use lus_reader::{Counts, class_at, push, read_labelled};
use lus_tree::{Named, Refusal};
use std::alloc::Global;

/// What a mode requires and what it ensures, each kind in text order.
#[derive(Drop)]
pub struct ModeItems {
    pub required: Vec<Named>,
    pub ensured: Vec<Named>,
}

/// `{ ("require" | "ensure") [ TEXT ] expr ";" }`
pub fn read_mode_items(
    alloc: Global,
    tokens: &[Token],
    bytes: &[u8],
    at: u32,
    counts: &mut Counts,
) -> Result<(ModeItems, u32), Refusal>
    requires cut { AreTokens bytes.now tokens.now }
    requires small { length bytes.now ≤ 1048576 }
    requires few { length tokens.now ≤ 1048576 }
    requires inside { at ≤ length tokens.now }
    ensures run { IfOk result (λ r. ReadsFrom mode_items_of bytes.now tokens.now
        (repeated (part P.ModeItem)) at counts.old r.1 counts.new
        (map named_view r.0.required.items, map named_view r.0.ensured.items)) }
    ensures stop { IfErr result (λ e. RefusesFrom bytes.now tokens.now (repeated (part P.ModeItem)) at counts.old e) }
    ensures inside { IfOk result (λ r. (at ≤ r.1) × (r.1 ≤ length tokens.now)) }
{
    let mut items = ModeItems {
        required: Vec::new(alloc),
        ensured: Vec::new(alloc),
    };
    let mut next = at;
    while let Some(start) = mode_item_start(class_at(tokens, next)) {
        next = add_mode_item(alloc, tokens, bytes, next, start, &mut items, counts)?;
    }
    Ok((items, next))
}

/// `("require" | "ensure") [ TEXT ] expr ";"`, put behind others of its kind
fn add_mode_item(
    alloc: Global,
    tokens: &[Token],
    bytes: &[u8],
    at: u32,
    start: ModeItemStart,
    items: &mut ModeItems,
    counts: &mut Counts,
) -> Result<u32, Refusal>
    requires cut { AreTokens bytes.now tokens.now }
    requires small { length bytes.now ≤ 1048576 }
    requires few { length tokens.now ≤ 1048576 }
    requires word { (stream bytes.now tokens.now at).class ≡ Some (mode_item_class start) }
    requires inside { at < length tokens.now }
    ensures run { IfOk result (λ r. GrowsModeItems bytes.now tokens.now at counts.old r counts.new items.old
        items.new) }
    ensures stop { IfErr result (λ e. RefusesFrom bytes.now tokens.now (part P.ModeItem) at counts.old e) }
    ensures inside { IfOk result (λ r. (at < r) × (r ≤ length tokens.now)) }
{
    let (named, next) = read_labelled(alloc, tokens, bytes, at, counts)?;
    match start {
        ModeItemStart::Require => {
            push(&mut items.required, named)?;
            Ok(next)
        }
        ModeItemStart::Ensure => {
            push(&mut items.ensured, named)?;
            Ok(next)
        }
    }
}
