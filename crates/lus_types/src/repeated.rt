//! Words that stand twice.

ghost use Rattle.std.specs.Prelude.{◌≡◌, ◌<◌, suc, ◌++◌, IfOk, List, Option, drop, length};
ghost use Rattle.lus_tree.specs.Reason.{Refused, name_twice};
ghost use Rattle.lus_tree.specs.View.{word_view};
ghost use Rattle.lus_meaning.specs.Faults.{later, meets, same_word, words_twice};
ghost use Rattle.lus_meaning.specs.NameFaults.{outer_twice};
ghost use Rattle.lus_scopes.specs.Least.{least_view, noted_all};
ghost use Rattle.lus_scopes.specs.Notes.{Notes};
ghost use Rattle.lus_types.specs.Repeated.{HasSeen, twice_from_last};
ghost use Rattle.lus_types.specs.Words.{words_view};

use lus_scopes::least::{Least, is_before};
use lus_tree::{PlacedName, Pos, What};
use name_table::NameTable;
use std::alloc::{AllocError, Global};

/// The later of two places.
pub(crate) fn later(first: Pos, second: Pos) -> Pos
    ensures { result ≡ later first second }
{
    if is_before(first, second) {
        second
    } else {
        first
    }
}

/// Whether two words are the same.
fn is_same(word: &PlacedName, other: &PlacedName) -> bool
    ensures { result ≡ same_word (word_view word.now) (word_view other.now) }
{
    word.text.as_str() == other.text.as_str()
}

/// Notes a word and each of these that is the same, at the later of the two.
pub(crate) fn note_meets(least: &mut Least, word: &PlacedName, words: &[&PlacedName])
    ensures { least_view least.new ≡ noted_all (least_view least.old)
        (meets same_word (λ w. w.at) name_twice (word_view word.now) (words_view words.now)) }
{
    for other in words {
        let same = is_same(word, other);
        least.note_if(same, What::NameTwice, later(word.at, other.at));
    }
}

/// Notes a word and each of those behind it that is the same. `seen` has the texts of those behind
/// it.
fn note_if_seen(least: &mut Least, seen: &NameTable, word: &PlacedName, behind: &[&PlacedName])
    requires { HasSeen seen.now (words_view behind.now) }
    ensures { least_view least.new ≡ noted_all (least_view least.old)
        (meets same_word (λ w. w.at) name_twice (word_view word.now) (words_view behind.now)) }
{
    if seen.has(&word.text) {
        note_meets(least, word, behind);
    }
}

/// Notes the word of that number and each of those behind it that is the same. `seen` has the texts
/// of those behind it, and then its own.
fn note_word(
    alloc: Global,
    least: &mut Least,
    seen: &mut NameTable,
    words: &[&PlacedName],
    number: usize,
) -> Result<(), AllocError>
    requires within { number < length words.now }
    requires seen { HasSeen seen.now (words_view (drop (suc number) words.now)) }
    ensures noted { IfOk result (λ _. (o : Option Refused) → least_view least.old
        ≡ noted_all o (twice_from_last (words_view (drop (suc number) words.now)))
        → least_view least.new ≡ noted_all o (twice_from_last (words_view (drop number words.now)))) }
    ensures seen { IfOk result (λ _. HasSeen seen.new (words_view (drop number words.now))) }
{
    let word = words[number];
    note_if_seen(least, seen, word, &words[number + 1..]);
    seen.add(alloc, &word.text)?;
    Ok(())
}

/// Notes the words that stand twice, each two at the later place.
///
/// # Errors
///
/// Want of memory.
pub(crate) fn words_twice(
    alloc: Global,
    least: &mut Least,
    words: &[&PlacedName],
) -> Result<(), AllocError>
    ensures { IfOk result (λ _. Notes (least_view least.old) (least_view least.new)
        (words_twice name_twice (words_view words.now))) }
{
    let mut seen = NameTable::new(alloc);
    let mut left = words.len();
    while left > 0 {
        left -= 1;
        note_word(alloc, least, &mut seen, words, left)?;
    }
    Ok(())
}

/// The texts of these words.
pub(crate) fn texts_of(alloc: Global, words: &[&PlacedName]) -> Result<NameTable, AllocError>
    ensures { IfOk result (λ t. HasSeen t (words_view words.now)) }
{
    let mut seen = NameTable::new(alloc);
    let mut left = words.len();
    while left > 0 {
        left -= 1;
        add_word(alloc, &mut seen, words, left)?;
    }
    Ok(seen)
}

/// Adds the text of the word of that number.
fn add_word(
    alloc: Global,
    seen: &mut NameTable,
    words: &[&PlacedName],
    number: usize,
) -> Result<(), AllocError>
    requires within { number < length words.now }
    requires seen { HasSeen seen.now (words_view (drop (suc number) words.now)) }
    ensures { IfOk result (λ _. HasSeen seen.new (words_view (drop number words.now))) }
{
    let word = words[number];
    seen.add(alloc, &word.text)?;
    Ok(())
}

/// Notes each of these words that is a constant of the program, at the later of the two. `seen` has
/// the texts of the constants.
#[tactic(auto, using(lus_scopes::proofs::Leasts::noted_append))]
pub(crate) fn outer_twice(
    least: &mut Least,
    seen: &NameTable,
    outer: &[&PlacedName],
    words: &[&PlacedName],
)
    requires { HasSeen seen.now (words_view outer.now) }
    ensures { least_view least.new ≡ noted_all (least_view least.old)
        (outer_twice (words_view outer.now) (words_view words.now)) }
{
    for word in words {
        note_if_seen(least, seen, word, outer);
    }
}
