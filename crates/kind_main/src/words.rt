//! The words of the command line.
ghost use Rattle.std.specs.Prelude.{◌≡◌, map, MatchOption};
ghost use Rattle.std.specs.String.{string_bytes};
ghost use Rattle.kind_main.specs.Given.{given_view};
ghost use Rattle.kind_main.specs.Words.{AreNoCommand, IsCommand, IsProofOf};

use crate::given::{Given, is_option, read_given};
use crate::options::{Engines, Options};

/// Where no option says otherwise.
const DEFAULT: Options = Options {
    depth: 20,
    engines: Engines::BoundedStep,
};

/// A command with the names of its files. The empty name is standard input.
#[derive(Drop)]
pub enum Command<'a> {
    Prove { source: &'a str, options: Options },
    Replay { source: &'a str, trace: &'a str },
}

/// A proof with what its words give.
fn proof_of(given: Given<'_>) -> Command<'_>
    ensures { IsProofOf (given_view given.entry) result }
{
    let source = given.source.unwrap_or("");
    let depth = given.depth.unwrap_or(DEFAULT.depth);
    let engines = given.engines.unwrap_or(DEFAULT.engines);
    Command::Prove {
        source,
        options: Options { depth, engines },
    }
}

/// The command of these words, where they have the form of one that is built.
pub fn read_words(words: &[String]) -> Option<Command<'_>>
    ensures { MatchOption result (AreNoCommand (map string_bytes words.now)) (IsCommand (map string_bytes words.now)) }
{
    match words {
        [] => Some(Command::Prove {
            source: "",
            options: DEFAULT,
        }),
        [command, more @ ..] if command.as_str() == "prove" => match read_given(more) {
            None => None,
            Some(given) => Some(proof_of(given)),
        },
        [command, source, trace] => {
            let source = source.as_str();
            let trace = trace.as_str();
            if command.as_str() == "replay" && !is_option(source) && !is_option(trace) {
                Some(Command::Replay { source, trace })
            } else {
                None
            }
        }
        _ => None,
    }
}
