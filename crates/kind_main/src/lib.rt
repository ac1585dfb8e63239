//! The program `kind` behind its words, its files and its output.
#![tactic(auto)]

mod answer;
mod cause;
mod ending;
mod fetching;
mod given;
mod idle;
mod options;
mod outcome;
mod playing;
mod print;
mod proving;
mod replaying;
mod report;
mod source;
mod status;
mod tally;
mod text;
mod text_lines;
mod top;
mod verdicts;
mod words;

pub use status::Status;
pub use top::kind_top;
