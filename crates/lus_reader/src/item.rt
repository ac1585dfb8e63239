//! Bodies.

ghost use Rattle.std.specs.Prelude.{◌≡◌, ◌<◌, ◌≤◌, [], ◌∷◌, List, ℕ, map, length, IfOk, IfErr, IsTrue};
ghost use Rattle.lus_tree.specs.Reason.{refusal_view};
ghost use Rattle.lus_tree.specs.View.{word_view, item_view};
ghost use Rattle.lus_grammar.specs.Stream.{stream};
ghost use Rattle.lus_grammar.specs.Phrase.{◌⨾◌, one_of, optional, repeated, part, limited};
ghost use Rattle.lus_grammar.specs.Phrase as P;
ghost use Rattle.lus_grammar.specs.Grammar.{labelled, semicolon};
ghost use Rattle.lus_grammar.specs.Text.{IsOneOf};
ghost use Rattle.lus_grammar.specs.Starts.{Passes, class_code, code, codes_of, listed, starts};
ghost use Rattle.lus_grammar.specs.Answers.{IsText, IsNoText};
ghost use Rattle.lus_grammar.specs.Source.{AreTokens};
ghost use Rattle.lus_grammar.specs.Programs.{left_of, items_of};
ghost use Rattle.lus_reader.specs.View.{counts_view};
ghost use Rattle.lus_reader.specs.Values.{item_of, equation_of, assertion_of, property_of, main_of, before, property_classes};
ghost use Rattle.lus_reader.specs.Told.{ReadsAt, RefusesAt, ReadsFrom, RefusesFrom};

use crate::counts::Counts;
use crate::ends::{read_ended, read_labelled};
use crate::list::push;
use crate::look::{class_at, expect, is_at, optional_token, place_at};
use crate::words::names;
use lus_lexer::{Annotation, Class, Keyword, Sign, Token};
use lus_tree::{Item, PlacedName, Refusal};
use std::alloc::Global;

/// The longest list of items from a token on, which may be empty, and the place behind it, where
/// no item begins.
pub fn read_body(
    alloc: Global,
    tokens: &[Token],
    bytes: &[u8],
    from: u32,
    counts: &mut Counts,
) -> Result<(Vec<Item>, u32), Refusal>
    requires cut { AreTokens bytes.now tokens.now }
    requires small { length bytes.now ≤ 1048576 }
    requires inside { from ≤ length tokens.now }
    ensures found { IfOk result (λ r. IsText items_of (stream bytes.now tokens.now) (repeated (part P.Item)) from
        (counts_view counts.old) r.1 (counts_view counts.new) (map item_view r.0.items)) }
    ensures refused { IfErr result (λ e. IsNoText (stream bytes.now tokens.now) (repeated (part P.Item)) from
        (counts_view counts.old) (refusal_view e)) }
    ensures run { IfOk result (λ r. ReadsFrom items_of bytes.now tokens.now
        (repeated (part P.Item)) from counts.old r.1 counts.new (map item_view r.0.items)) }
    ensures stop { IfErr result (λ e. RefusesFrom bytes.now tokens.now (repeated (part P.Item)) from counts.old e) }
    ensures kept { IfErr result (λ e. counts.new ≡ counts.old) }
    ensures last { IfOk result (λ r. Passes (stream bytes.now tokens.now) r.1 (part P.Item)) }
    ensures inside { IfOk result (λ r. (from ≤ r.1) × (r.1 ≤ length tokens.now)) }
{
    match read_items(alloc, tokens, bytes, from, counts) {
        Ok(read) => Ok(read),
        Err(refusal) => Err(refusal),
    }
}

/// The same, by a reading.
fn read_items(
    alloc: Global,
    tokens: &[Token],
    bytes: &[u8],
    from: u32,
    counts: &mut Counts,
) -> Result<(Vec<Item>, u32), Refusal>
    requires cut { AreTokens bytes.now tokens.now }
    requires small { length bytes.now ≤ 1048576 }
    requires inside { from ≤ length tokens.now }
    ensures run { IfOk result (λ r. ReadsFrom items_of bytes.now tokens.now
        (repeated (part P.Item)) from counts.old r.1 counts.new (map item_view r.0.items)) }
    ensures stop { IfErr result (λ e. RefusesFrom bytes.now tokens.now (repeated (part P.Item)) from counts.old e) }
    ensures kept { IfErr result (λ e. counts.new ≡ counts.old) }
    ensures last { IfOk result (λ r. Passes (stream bytes.now tokens.now) r.1 (part P.Item)) }
    ensures inside { IfOk result (λ r. (from ≤ r.1) × (r.1 ≤ length tokens.now)) }
{
    let mut items = Vec::new(alloc);
    let mut next = from;
    let mut after = *counts;
    while begins_item(tokens, next) {
        let (item, behind) = read_item(alloc, tokens, bytes, next, &mut after)?;
        push(&mut items, item)?;
        next = behind;
    }
    *counts = after;
    Ok((items, next))
}

/// Whether an item begins there.
pub fn begins_item(tokens: &[Token], at: u32) -> bool
    ensures begins { (bytes : List ℕ)
        → listed (code (stream bytes tokens.now at).class) (starts (part P.Item)) ≡ result }
{
    is_item_class(class_at(tokens, at))
}

/// Whether an item begins with a token of this class.
fn is_item_class(class: Option<Class>) -> bool
    ensures { listed (code class) (starts (part P.Item)) ≡ result }
{
    match class {
        Some(Class::Ident) | Some(Class::Sign(Sign::Open)) => true,
        Some(Class::Keyword(Keyword::Assert)) | Some(Class::Keyword(Keyword::Check)) => true,
        Some(Class::Annotation(_)) => true,
        _ => false,
    }
}

/// An item, and the place behind it.
fn read_item(
    alloc: Global,
    tokens: &[Token],
    bytes: &[u8],
    at: u32,
    counts: &mut Counts,
) -> Result<(Item, u32), Refusal>
    requires cut { AreTokens bytes.now tokens.now }
    requires small { length bytes.now ≤ 1048576 }
    ensures run { IfOk result (λ r. ReadsFrom item_of bytes.now tokens.now
        (part P.Item) at counts.old r.1 counts.new (before (item_view r.0))) }
    ensures stop { IfErr result (λ e. RefusesFrom bytes.now tokens.now (part P.Item) at counts.old e) }
    ensures kept { IfErr result (λ e. counts.new ≡ counts.old) }
    ensures inside { IfOk result (λ r. (at < r.1) × (r.1 ≤ length tokens.now)) }
{
    if begins_equation(tokens, at) {
        return equation(alloc, tokens, bytes, at, counts);
    }
    if is_at(tokens, at, Class::Keyword(Keyword::Assert)) {
        return assertion(alloc, tokens, bytes, at, counts);
    }
    if begins_property(tokens, at) {
        return property(alloc, tokens, bytes, at, counts);
    }
    main_mark(alloc, tokens, bytes, at)
}

/// Whether an equation begins there.
fn begins_equation(tokens: &[Token], at: u32) -> bool
    ensures begins { (bytes : List ℕ)
        → listed (code (stream bytes tokens.now at).class) (starts (part P.Left)) ≡ result }
{
    is_left_class(class_at(tokens, at))
}

/// Whether the left side of an equation begins with a token of this class.
fn is_left_class(class: Option<Class>) -> bool
    ensures { listed (code class) (starts (part P.Left)) ≡ result }
{
    match class {
        Some(Class::Ident) | Some(Class::Sign(Sign::Open)) => true,
        _ => false,
    }
}

/// Whether a property begins there.
fn begins_property(tokens: &[Token], at: u32) -> bool
    ensures begins { (bytes : List ℕ)
        → listed (code (stream bytes tokens.now at).class)
        (starts (one_of property_classes)) ≡ result }
    ensures inside { IsTrue result → at < length tokens.now }
{
    match class_at(tokens, at) {
        Some(class) => is_property_class(class),
        None => false,
    }
}

/// Whether a property begins with a token of this class.
fn is_property_class(class: Class) -> bool
    ensures { listed (class_code class) (codes_of property_classes) ≡ result }
{
    match class {
        Class::Keyword(Keyword::Check) => true,
        Class::Annotation(Annotation::Property) => true,
        _ => false,
    }
}

/// `left = expression;`, and the place behind it.
fn equation(
    alloc: Global,
    tokens: &[Token],
    bytes: &[u8],
    at: u32,
    counts: &mut Counts,
) -> Result<(Item, u32), Refusal>
    requires cut { AreTokens bytes.now tokens.now }
    requires small { length bytes.now ≤ 1048576 }
    ensures run { IfOk result (λ r. ReadsFrom equation_of bytes.now tokens.now
        (part P.Left ⨾ P.sign Sign.Equals ⨾ limited P.Expression ⨾ semicolon) at counts.old r.1 counts.new
        (before (item_view r.0))) }
    ensures stop { IfErr result (λ e. RefusesFrom bytes.now tokens.now
        (part P.Left ⨾ P.sign Sign.Equals ⨾ limited P.Expression ⨾ semicolon) at counts.old e) }
    ensures kept { IfErr result (λ e. counts.new ≡ counts.old) }
    ensures inside { IfOk result (λ r. (at < r.1) × (r.1 ≤ length tokens.now)) }
{
    let (left, next) = read_left(alloc, tokens, bytes, at)?;
    let next = expect(alloc, tokens, bytes, next, Class::Sign(Sign::Equals))?;
    let (right, next) = read_ended(alloc, tokens, bytes, next, counts)?;
    Ok((Item::Equation(left, right), next))
}

/// The names on the left side of an equation, and the place behind them.
pub fn read_left(
    alloc: Global,
    tokens: &[Token],
    bytes: &[u8],
    at: u32,
) -> Result<(Vec<PlacedName>, u32), Refusal>
    requires cut { AreTokens bytes.now tokens.now }
    requires small { length bytes.now ≤ 1048576 }
    ensures run { IfOk result (λ r. ReadsAt left_of bytes.now tokens.now (part P.Left) at r.1
        (map word_view r.0.items)) }
    ensures stop { IfErr result (λ e. RefusesAt bytes.now tokens.now (part P.Left) at e) }
    ensures inside { IfOk result (λ r. (at < r.1) × (r.1 ≤ length tokens.now)) }
{
    if is_at(tokens, at, Class::Ident) {
        let (names, next) = names(alloc, tokens, bytes, at)?;
        return Ok((names, next));
    }
    let next = expect(alloc, tokens, bytes, at, Class::Sign(Sign::Open))?;
    let (names, next) = names(alloc, tokens, bytes, next)?;
    let next = expect(alloc, tokens, bytes, next, Class::Sign(Sign::Close))?;
    Ok((names, next))
}

/// `assert expression;`, and the place behind it.
fn assertion(
    alloc: Global,
    tokens: &[Token],
    bytes: &[u8],
    at: u32,
    counts: &mut Counts,
) -> Result<(Item, u32), Refusal>
    requires cut { AreTokens bytes.now tokens.now }
    requires small { length bytes.now ≤ 1048576 }
    ensures run { IfOk result (λ r. ReadsFrom assertion_of bytes.now tokens.now
        (P.word Keyword.Assert ⨾ limited P.Expression ⨾ semicolon) at counts.old r.1 counts.new
        (before (item_view r.0))) }
    ensures stop { IfErr result (λ e. RefusesFrom bytes.now tokens.now
        (P.word Keyword.Assert ⨾ limited P.Expression ⨾ semicolon) at counts.old e) }
    ensures kept { IfErr result (λ e. counts.new ≡ counts.old) }
    ensures inside { IfOk result (λ r. (at < r.1) × (r.1 ≤ length tokens.now)) }
{
    let next = expect(alloc, tokens, bytes, at, Class::Keyword(Keyword::Assert))?;
    let (condition, next) = read_ended(alloc, tokens, bytes, next, counts)?;
    Ok((Item::Assert(condition), next))
}

/// What follows `check` or `--%PROPERTY`, and the place behind it.
fn property(
    alloc: Global,
    tokens: &[Token],
    bytes: &[u8],
    at: u32,
    counts: &mut Counts,
) -> Result<(Item, u32), Refusal>
    requires cut { AreTokens bytes.now tokens.now }
    requires small { length bytes.now ≤ 1048576 }
    requires first { IsOneOf (stream bytes.now tokens.now) at
        property_classes }
    requires inside { at < length tokens.now }
    ensures run { IfOk result (λ r. ReadsFrom property_of bytes.now tokens.now
        (one_of property_classes ⨾ labelled) at counts.old
        r.1 counts.new (before (item_view r.0))) }
    ensures stop { IfErr result (λ e. RefusesFrom bytes.now tokens.now
        (one_of property_classes ⨾ labelled) at counts.old e) }
    ensures kept { IfErr result (λ e. counts.new ≡ counts.old) }
    ensures inside { IfOk result (λ r. (at < r.1) × (r.1 ≤ length tokens.now)) }
{
    let (named, next) = read_labelled(alloc, tokens, bytes, at, counts)?;
    Ok((Item::Property(named), next))
}

/// `--%MAIN` and perhaps a semicolon, and the place behind them.
fn main_mark(alloc: Global, tokens: &[Token], bytes: &[u8], at: u32) -> Result<(Item, u32), Refusal>
    requires cut { AreTokens bytes.now tokens.now }
    requires small { length bytes.now ≤ 1048576 }
    ensures run { IfOk result (λ r. ReadsAt main_of bytes.now tokens.now
        (one_of (Class.Annotation Annotation.Main ∷ []) ⨾ optional semicolon) at r.1 (before (item_view r.0))) }
    ensures stop { IfErr result (λ e. RefusesAt bytes.now tokens.now
        (one_of (Class.Annotation Annotation.Main ∷ []) ⨾ optional semicolon) at e) }
    ensures inside { IfOk result (λ r. (at < r.1) × (r.1 ≤ length tokens.now)) }
{
    let next = expect(
        alloc,
        tokens,
        bytes,
        at,
        Class::Annotation(Annotation::Main),
    )?;
    let behind = optional_token(tokens, bytes, next, Class::Sign(Sign::Semicolon));
    Ok((Item::Main(place_at(tokens, bytes, at)), behind))
}
