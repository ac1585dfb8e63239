//! What the words behind `prove` give.

ghost use Rattle.std.specs.Prelude.{◌≡◌, ℕ, map, MatchOption};
ghost use Rattle.std.specs.String.{string_bytes};
ghost use Rattle.kind_main.specs.declared.options.Engines.{Engines as Listed};
ghost use Rattle.kind_main.specs.Given.{AreGiven, GivesFile, GivesOption, Given as Words, IsDepth, engines_word, given_view, is_option as option_of};

use crate::options::Engines;

/// A file, a depth and engines, each where it is given.
#[derive(Clone, Copy)]
pub struct Given<'a> {
    pub source: Option<&'a str>,
    pub depth: Option<u32>,
    pub engines: Option<Engines>,
}

/// Whether a word is an option.
pub fn is_option(word: &str) -> bool
    ensures { result ≡ option_of word.now }
{
    word.as_bytes().first() == Some(&b'-')
}

/// The depth that a word names.
fn depth_of(word: &str) -> Option<u32>
    ensures { MatchOption result ((n : ℕ) → IsDepth word.now n → ⊥) (IsDepth word.now) }
{
    if word.len() > 19 || word.as_bytes().first() == Some(&b'+') {
        return None;
    }
    let Ok(depth) = word.parse::<u32>() else {
        return None;
    };
    if 1 <= depth && depth <= 1000 {
        Some(depth)
    } else {
        None
    }
}

/// The engines that a word lists.
fn engines_of(word: &str) -> Option<Engines>
    ensures { MatchOption result ((e : Listed) → word.now ≡ engines_word e → ⊥) (λ e. word.now ≡ engines_word e) }
{
    if word == "bounded" {
        Some(Engines::Bounded)
    } else if word == "step" {
        Some(Engines::Step)
    } else if word == "bounded,step" {
        Some(Engines::BoundedStep)
    } else if word == "step,bounded" {
        Some(Engines::StepBounded)
    } else {
        None
    }
}

impl<'a> Given<'a> {
    /// With a file.
    fn with_source(self, word: &'a str) -> Option<Given<'a>>
        ensures { MatchOption result ((g : Words) → GivesFile word.now (given_view self.entry) g → ⊥)
            (λ r. GivesFile word.now (given_view self.entry) (given_view r)) }
    {
        if is_option(word) || self.source.is_some() {
            return None;
        }
        Some(Given {
            source: Some(word),
            ..self
        })
    }

    /// With an option.
    fn with_option(self, word: &str, value: &str) -> Option<Given<'a>>
        ensures { MatchOption result ((g : Words) → GivesOption word.now value.now (given_view self.entry) g → ⊥)
            (λ r. GivesOption word.now value.now (given_view self.entry) (given_view r)) }
    {
        if word == "--depth" && self.depth.is_none() {
            let depth = Some(depth_of(value)?);
            Some(Given { depth, ..self })
        } else if word == "--engines" && self.engines.is_none() {
            let engines = Some(engines_of(value)?);
            Some(Given { engines, ..self })
        } else {
            None
        }
    }
}

/// What the words give.
pub fn read_given(words: &[String]) -> Option<Given<'_>>
    ensures { MatchOption result ((g : Words) → AreGiven (map string_bytes words.now) g → ⊥)
        (λ r. AreGiven (map string_bytes words.now) (given_view r)) }
{
    let nothing = Given {
        source: None,
        depth: None,
        engines: None,
    };
    match words {
        [] => Some(nothing),
        [word] => nothing.with_source(word.as_str()),
        [word, value, rest @ ..] => {
            let word = word.as_str();
            if is_option(word) {
                match read_given(rest) {
                    None => None,
                    Some(others) => others.with_option(word, value.as_str()),
                }
            } else {
                match read_given(&words[1..]) {
                    None => None,
                    Some(others) => others.with_source(word),
                }
            }
        }
    }
}
