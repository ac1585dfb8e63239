//! Left names that stand twice.

ghost use Rattle.std.specs.Prelude.{◌≡◌, ◌<◌, suc, IfOk, Option, drop, length};
ghost use Rattle.lus_tree.specs.Reason.{Refused, equation_twice};
ghost use Rattle.lus_tree.specs.View.{word_view};
ghost use Rattle.lus_meaning.specs.Faults.{later, same_word, words_twice};
ghost use Rattle.lus_meaning.specs.Scope.{is_before};
ghost use Rattle.lus_scopes.specs.Least.{least_view, noted_all};
ghost use Rattle.lus_scopes.specs.Notes.{Notes};
ghost use Rattle.lus_order.specs.Names.{HasSeen};
ghost use Rattle.lus_order.specs.Names.{words_view};
ghost use Rattle.lus_order.specs.Repeated.{met, twice_from_last};

use lus_scopes::least::Least;
use lus_tree::{PlacedName, Pos, What};
use name_table::NameTable;
use std::alloc::{AllocError, Global};

/// Whether the first place stands before the second.
fn is_before(first: Pos, second: Pos) -> bool
    ensures { result ≡ is_before first second }
{
    first.line < second.line || (first.line == second.line && first.column < second.column)
}

/// The later of two places.
fn later(first: Pos, second: Pos) -> Pos
    ensures { result ≡ later first second }
{
    if is_before(first, second) {
        second
    } else {
        first
    }
}

/// Whether two words are the same.
fn is_same(word: &PlacedName, other: &PlacedName) -> bool
    ensures { result ≡ same_word (word_view word.now) (word_view other.now) }
{
    word.text.as_str() == other.text.as_str()
}

/// Notes a word and each of these that is the same, at the later of the two.
fn note_meets(least: &mut Least, word: &PlacedName, words: &[&PlacedName])
    ensures { least_view least.new ≡ noted_all (least_view least.old)
        (met (word_view word.now) (words_view words.now)) }
{
    for other in words {
        let same = is_same(word, other);
        least.note_if(same, What::EquationTwice, later(word.at, other.at));
    }
}

/// Notes a word and each of those behind it that is the same. `seen` has the texts of those behind
/// it.
fn note_if_seen(least: &mut Least, seen: &NameTable, word: &PlacedName, behind: &[&PlacedName])
    requires { HasSeen seen.now (words_view behind.now) }
    ensures { least_view least.new ≡ noted_all (least_view least.old)
        (met (word_view word.now) (words_view behind.now)) }
{
    if seen.has(&word.text) {
        note_meets(least, word, behind);
    }
}

/// Notes the word of that number and each of those behind it that is the same. `seen` has the texts
/// of those behind it, and then its own.
fn note_word(
    alloc: Global,
    least: &mut Least,
    seen: &mut NameTable,
    words: &[&PlacedName],
    number: usize,
) -> Result<(), AllocError>
    requires within { number < length words.now }
    requires seen { HasSeen seen.now (words_view (drop (suc number) words.now)) }
    ensures noted { IfOk result (λ _. (o : Option Refused) → least_view least.old
        ≡ noted_all o (twice_from_last (words_view (drop (suc number) words.now)))
        → least_view least.new ≡ noted_all o (twice_from_last (words_view (drop number words.now)))) }
    ensures seen { IfOk result (λ _. HasSeen seen.new (words_view (drop number words.now))) }
{
    let word = words[number];
    note_if_seen(least, seen, word, &words[number + 1..]);
    seen.add(alloc, &word.text)?;
    Ok(())
}

/// Notes the words that stand twice, each two at the later place.
///
/// # Errors
///
/// Want of memory.
pub(crate) fn words_twice(
    alloc: Global,
    least: &mut Least,
    words: &[&PlacedName],
) -> Result<(), AllocError>
    ensures { IfOk result (λ _. Notes (least_view least.old) (least_view least.new)
        (words_twice equation_twice (words_view words.now))) }
{
    let mut seen = NameTable::new(alloc);
    let mut left = words.len();
    while left > 0 {
        left -= 1;
        note_word(alloc, least, &mut seen, words, left)?;
    }
    Ok(())
}
