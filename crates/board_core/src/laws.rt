//! Laws of books, over the definitions alone: each function is its contract.

ghost use Rattle.std.specs.Prelude.{ℕ, ◌≡◌, ◌++◌, List, []};
ghost use Rattle.sys_terms.specs.View.{Machine};
ghost use Rattle.sys_terms.specs.Fits.{IsFit};
ghost use Rattle.board_core.specs.declared.plan.Plan.{Plan as Options};
ghost use Rattle.board_core.specs.Entries.{Claim, Posting, IsTrueAfter, AreSound};
ghost use Rattle.board_core.specs.Verdicts.{judged, IsJudged};
ghost use Rattle.board_core.specs.Interleaving.{Event, AreEvents, IsInterleaving, book_of, BookHolds};

/// After every list of events, the posts among them being of entries that are true after the book
/// before them, the book is sound.
pub fn events_leave_sound_books()
    ensures { (m : Machine) (plan : Options) (events : List Event)
        → AreEvents m plan [] events → AreSound m plan (book_of [] events) }
{}

/// Where each seat posts what is true after the entries that it has seen, the posts are of entries
/// that are true after the book before them, and the book is sound.
pub fn interleavings_leave_sound_books()
    ensures events { (m : Machine) (plan : Options) (events : List Event)
        → IsInterleaving m plan (λ _. 0) [] events → AreEvents m plan [] events }
    ensures sound { (m : Machine) (plan : Options) (events : List Event)
        → IsInterleaving m plan (λ _. 0) [] events → AreSound m plan (book_of [] events) }
{}

/// In a sound book lemmas and held properties are true in all reachable states, and no property is
/// both held and broken.
pub fn sound_books_hold()
    ensures { (m : Machine) (plan : Options) (history : List Posting)
        → IsFit m → AreSound m plan history → BookHolds m history }
{
    cert_rules::laws::facts_hold();
}

/// What a sound book's verdict says is so: a property that it calls valid is true in all reachable
/// states, and one that it calls falsifiable is broken by the path of the entry that it names.
pub fn verdicts_are_true()
    ensures { (m : Machine) (plan : Options) (history : List Posting) (p : ℕ)
        → IsFit m → AreSound m plan history → IsJudged m p history (judged p history) }
{
    sound_books_hold();
}

/// What is true after some entries is true after more.
pub fn true_entries_stay_true()
    ensures { (m : Machine) (plan : Options) (history more : List Posting) (says : Claim)
        → IsTrueAfter m plan history says → IsTrueAfter m plan (history ++ more) says }
{}
