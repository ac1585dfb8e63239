//! What a text is translated over: what the names and numbers of a frame mean.

ghost use Rattle.std.specs.Prelude.{◌≡◌, map, option_map, slice_get, unwrap_or};
ghost use Rattle.lus_streams.specs.Clocks.{clock_seen};
ghost use Rattle.lus_meaning.specs.Run.{sort_of_value};
ghost use Rattle.lus_meaning.specs.Value.{absent};
ghost use Rattle.sys_parts.specs.Constants.{constant_view};
ghost use Rattle.sys_parts.specs.Parts.{part_view};
ghost use Rattle.sys_terms.specs.View.{term_view};
ghost use Rattle.sys_texts.specs.Sights.{counted_from_one, name_clock, name_flag, name_number, name_part, name_sort, number_at};
ghost use Rattle.sys_texts.specs.Views.{call_view, sight_view, stream_view};

use indexmap::IndexMap;
use lus_meaning::Value;
use lus_streams::clock::Clock;
use lus_tree::Sort;
use sys_parts::constant::Constant;
use sys_parts::formulas::flag;
use sys_parts::parts::{Part, variable};
use sys_terms::Term;

/// A stream of a frame: its type, the number of its variable, and its clock.
#[derive(Clone, Copy)]
pub struct Stream<'a> {
    pub sort: Sort,
    pub number: u32,
    pub clock: Clock<'a>,
}

/// An output of a call: its type, the number of its variable, and that of the variable which holds it.
#[derive(Clone, Copy)]
pub struct Output {
    pub sort: Sort,
    pub number: u32,
    pub held: u32,
}

/// A call: whom it calls, the number of the variable that says where its frame is active, and its outputs.
#[derive(Drop)]
pub struct Call<'a> {
    pub callee: &'a str,
    pub beat: u32,
    pub outputs: Vec<Output>,
}

/// The way to a mode.
#[derive(Clone, Copy)]
pub enum Way<'a> {
    /// The contract itself.
    Own,
    /// A contract of this name, which it imports.
    Through(&'a str),
    /// A contract that these import. No text names its modes.
    Deeper,
}

/// A mode: what it asks, and each of its ensures where that is true.
#[derive(Drop)]
pub struct Mode<'a> {
    pub way: Way<'a>,
    pub name: &'a str,
    pub asked: Term,
    pub ensures_each: Vec<Term>,
}

/// A frame of a declaration: the number of the variable that says where it is active, the number that stands for
/// what isn't there, how many streams there are, what names mean, and the numbers of the variables of each `pre` and
/// each `->`, and the calls, by their numbers from 1.
#[derive(Drop)]
pub struct Sight<'a> {
    pub beat: u32,
    pub missing: u32,
    pub bound: usize,
    pub constants: IndexMap<&'a str, Constant>,
    pub streams: IndexMap<&'a str, Stream<'a>>,
    pub memories: Vec<u32>,
    pub starts: Vec<u32>,
    pub calls: Vec<Call<'a>>,
}

/// The number with that place, counted from 1.
fn number_at(numbers: &[u32], missing: u32, place: u32) -> u32
    ensures { result ≡ number_at numbers.now missing place }
{
    if place == 0 {
        return missing;
    }
    match numbers.get(place as usize - 1) {
        Some(number) => *number,
        None => missing,
    }
}

/// The number of the variable of a `pre`.
pub fn memory(sight: &Sight<'_>, number: u32) -> u32
    ensures { result ≡ number_at (sight_view sight.now).memories (sight_view sight.now).missing number }
{
    number_at(&sight.memories, sight.missing, number)
}

/// The number of the variable of a `->`.
pub fn start(sight: &Sight<'_>, number: u32) -> u32
    ensures { result ≡ number_at (sight_view sight.now).starts (sight_view sight.now).missing number }
{
    number_at(&sight.starts, sight.missing, number)
}

/// A call by its place.
#[tactic(auto, using(crate::proofs::Gotten::seen_at))]
fn placed<'a, 's>(calls: &'s [Call<'a>], place: usize) -> Option<&'s Call<'a>>
    ensures { option_map (λ c. call_view c.now) result ≡ slice_get (map call_view calls.now) place }
{
    calls.get(place)
}

/// The call with that number.
pub(crate) fn call_at<'a, 's>(sight: &'s Sight<'a>, number: u32) -> Option<&'s Call<'a>>
    ensures { option_map (λ c. call_view c.now) result ≡ counted_from_one (sight_view sight.now).calls number }
{
    if number == 0 {
        return None;
    }
    placed(&sight.calls, number as usize - 1)
}

/// A stream of that name.
fn stream_named<'a>(sight: &Sight<'a>, name: &str) -> Option<Stream<'a>>
    ensures { option_map stream_view result ≡ (sight_view sight.now).stream name.now }
{
    sight.streams.get(name).copied()
}

/// The value of a constant of that name.
pub(crate) fn constant(sight: &Sight<'_>, name: &str) -> Option<Constant>
    ensures { option_map constant_view result ≡ (sight_view sight.now).constant name.now }
{
    sight.constants.get(name).copied()
}

/// The type of a value; of none a truth value.
fn sort_of_value(value: Option<Constant>) -> Sort
    ensures { result ≡ sort_of_value (unwrap_or (option_map constant_view value) absent) }
{
    match value {
        Some(
            Constant {
                value: Some(Value::Whole(_)),
            },
        ) => Sort::Int,
        Some(_) | None => Sort::Bool,
    }
}

/// The type of a name.
pub(crate) fn name_sort(sight: &Sight<'_>, name: &str) -> Sort
    ensures { result ≡ name_sort (sight_view sight.now) name.now }
{
    match stream_named(sight, name) {
        Some(stream) => stream.sort,
        None => sort_of_value(constant(sight, name)),
    }
}

/// The number of a name's variable.
pub fn name_number(sight: &Sight<'_>, name: &str) -> u32
    ensures { result ≡ name_number (sight_view sight.now) name.now }
{
    match stream_named(sight, name) {
        Some(stream) => stream.number,
        None => sight.missing,
    }
}

/// The clock of a name.
pub(crate) fn name_clock<'a>(sight: &Sight<'a>, name: &str) -> Clock<'a>
    ensures { clock_seen result ≡ name_clock (sight_view sight.now) name.now }
{
    match stream_named(sight, name) {
        Some(stream) => stream.clock,
        None => Clock::Base,
    }
}

/// A name's variable.
pub fn name_part(sight: &Sight<'_>, name: &str) -> Part
    ensures { part_view result ≡ name_part (sight_view sight.now) name.now }
{
    variable(name_sort(sight, name), name_number(sight, name))
}

/// A name's variable as a truth value.
pub fn name_flag(sight: &Sight<'_>, name: &str) -> Term
    ensures { term_view result ≡ name_flag (sight_view sight.now) name.now }
{
    flag(name_number(sight, name))
}
