//! The source of a command.
ghost use Rattle.std.specs.Prelude.{◌≡◌, ◌≢◌, ◌≤◌, length, IfErr, IfOk, MatchResult, None, Some};
ghost use Rattle.lus_tree.specs.View.{program_view};
ghost use Rattle.lus_tree.specs.Reason.{refusal_view, memory};
ghost use Rattle.lus_meaning.specs.Grammatical.{IsGrammatical};
ghost use Rattle.lus_grammar.specs.Source.{IsSource};
ghost use Rattle.lus_checked.specs.Main.{main_node};
ghost use Rattle.lus_checked.specs.Program.{main_of, tree_of};
ghost use Rattle.kind_main.specs.Lines.{refused_line};
ghost use Rattle.kind_main.specs.Ending.{IfStopped, refused as ends_refused};
ghost use Rattle.kind_main.specs.Source.{EndsAtSource, FollowsAll, IsRuling};

use crate::ending::Stopped;
use crate::text::refused_text;
use contract_reader::read_program;
use lus_checked::{Checked, checked};
use lus_clocks::clocks;
use lus_tree::{Program, Refusal, What};
use lus_types::types;
use source_laws::laws::grammatical_sources;
use std::alloc::Global;

/// The end of a command whose source is refused.
fn refused(alloc: Global, refusal: &Refusal) -> Stopped
    ensures { IfStopped (λ e. (e ≡ ends_refused (refused_line (refusal_view refusal.now))) ×
        ((refusal_view refusal.now).reason ≢ memory)) result }
{
    match &refusal.what {
        What::Memory => Stopped::Memory,
        _ => match refused_text(alloc, refusal) {
            Ok(line) => Stopped::Refused(line),
            Err(_) => Stopped::Memory,
        },
    }
}

/// The program with what its checks know of it: it breaks no rule, and passes no limit, and its main node is the first
/// with a mark, else the last.
#[tactic(auto, using(crate::proofs::Ruling::typing_ruling, crate::proofs::Ruling::clocks_ruling, crate::proofs::Ruling::checked_ruling))]
fn ruled(alloc: Global, program: Program) -> Result<Checked, Refusal>
    requires grammatical { IsGrammatical (program_view program) }
    ensures same { IfOk result (λ c. tree_of c ≡ program_view program) }
    ensures right { IfOk result (λ _. FollowsAll (program_view program)) }
    ensures main { IfOk result (λ c. main_node (program_view program) None ≡ Some (main_of c)) }
    ensures refused { IfErr result (λ e. IsRuling (program_view program) (refusal_view e)) }
{
    let typed = types(alloc, program)?;
    let clocked = clocks(alloc, typed)?;
    checked(alloc, clocked, None)
}

/// The program of a source, which follows all rules and limits, with its main node.
pub fn read_source(alloc: Global, bytes: &[u8]) -> Result<Checked, Stopped>
    requires { length bytes.now ≤ 1048576 }
    ensures { MatchResult result (λ c. IsSource bytes.now (tree_of c)
        × FollowsAll (tree_of c) × (main_node (tree_of c) None ≡ Some (main_of c)))
        (IfStopped (EndsAtSource bytes.now)) }
{
    grammatical_sources();
    let program = match read_program(alloc, bytes) {
        Ok(program) => program,
        Err(refusal) => return Err(refused(alloc, &refusal)),
    };
    match ruled(alloc, program) {
        Ok(checked) => Ok(checked),
        Err(refusal) => Err(refused(alloc, &refusal)),
    }
}
