//! The first of the faults that were noted.

ghost use Rattle.std.specs.Prelude.{◌≡◌, ◌↔◌, IsTrue, MatchResult, None, List, Contains};
ghost use Rattle.lus_tree.specs.Reason.{Refused, refusal_view, what_view};
ghost use Rattle.lus_meaning.specs.Faults.{IsFirst, comes_before, fault, if_so, is_at, number_of};
ghost use Rattle.lus_meaning.specs.Refusals.{HasNone};
ghost use Rattle.lus_meaning.specs.Scope.{is_before};
ghost use Rattle.lus_scopes.specs.Least.{IsLeast, least_view, noted, noted_all};

use lus_tree::{Pos, Refusal, What};

/// The number of a rule.
fn number(what: &What) -> u32
    ensures { result ≡ number_of (what_view what.now) }
{
    match what {
        What::TooLong => 1,
        What::BadByte => 2,
        What::UnclosedComment => 3,
        What::WideLiteral => 4,
        What::Unexpected => 5,
        What::TooLarge => 6,
        What::LeftOut(_) => 7,
        What::NameTwice => 8,
        What::NameUnknown => 9,
        What::TypeClash => 10,
        What::ArityClash => 11,
        What::NotLinear => 12,
        What::ZeroDivisor => 13,
        What::NotConstant => 14,
        What::Heavy => 15,
        What::ClockClash => 16,
        What::EquationTwice => 17,
        What::InputDefined => 18,
        What::Cycle => 19,
        What::NodeRecursion => 20,
        What::NotStateless => 21,
        What::AssumeReadsOutput => 22,
        What::NoNode => 23,
        What::MainUnknown => 24,
        What::ModeUnknown => 25,
        What::TooMany(_) => 26,
        What::Memory => 28,
    }
}

/// Whether the first place stands before the second.
pub fn is_before(first: Pos, second: Pos) -> bool
    ensures { result ≡ is_before first second }
{
    first.line < second.line || (first.line == second.line && first.column < second.column)
}

/// Whether the two are one place.
fn is_at(first: Pos, second: Pos) -> bool
    ensures { result ≡ is_at first second }
{
    first.line == second.line && first.column == second.column
}

/// Whether the first fault counts before the second: it stands before it, or at the same place and
/// is of a rule with a smaller number.
fn comes_before(first: &Refusal, second: &Refusal) -> bool
    ensures { result ≡ comes_before (refusal_view first.now) (refusal_view second.now) }
{
    is_before(first.at, second.at)
        || (is_at(first.at, second.at) && number(&first.what) < number(&second.what))
}

/// The first of the faults that were noted, by place and at one place by the number of the rule.
#[derive(Drop)]
pub struct Least {
    pub fault: Option<Refusal>,
}

impl Least {
    /// No fault.
    pub fn new() -> Self
        ensures { least_view result ≡ None }
    {
        Least { fault: None }
    }

    /// Notes a fault.
    pub fn note(&mut self, what: What, at: Pos)
        ensures { least_view self.new ≡ noted (least_view self.old) (fault (what_view what) at) }
    {
        let next = Refusal { at, what };
        match &self.fault {
            Some(first) => {
                if comes_before(&next, first) {
                    self.fault = Some(next);
                }
            }
            None => {
                self.fault = Some(next);
            }
        }
    }

    /// Notes a fault where that is so.
    pub fn note_if(&mut self, broken: bool, what: What, at: Pos)
        ensures { least_view self.new ≡ noted_all (least_view self.old) (if_so broken (what_view what) at) }
    {
        if broken {
            self.note(what, at);
        }
    }

    /// Whether there was none.
    ///
    /// # Errors
    ///
    /// A first fault, where there was one.
    pub fn into_result(self) -> Result<(), Refusal>
        ensures { (fs : List Refused) → IsLeast (least_view self) fs
            → MatchResult result (λ _. HasNone (Contains fs)) (λ e. IsFirst (Contains fs) (refusal_view e)) }
    {
        match self.fault {
            Some(fault) => Err(fault),
            None => Ok(()),
        }
    }
}
