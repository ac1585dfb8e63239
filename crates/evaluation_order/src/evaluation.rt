//! The parts of an instant of a checked program in the order in which they are evaluated.

ghost use Rattle.std.specs.Prelude.{◌<◌, IfOk, length};
ghost use Rattle.lus_meaning.specs.ClockFaults.{components};
ghost use Rattle.lus_checked.specs.Program.{tree_of};
ghost use Rattle.lus_evaluation.specs.Evaluation.{IsEvaluation};
ghost use Rattle.evaluation_parts.specs.PartViews.{parts_view};
ghost use Rattle.evaluation_turns.specs.Turned.{OfDeclaration};

use crate::ordered::ordered_at;
use evaluation_parts::part::Part;
use evaluation_turns::sources::{all_declared, sources_of};
use evaluation_turns::turns::in_turn;
use lus_checked::Checked;
use std::alloc::{AllocError, Global};
use sys_tables::tables::tables;

/// All that is evaluated at an instant of the declaration of that number, constants left out, in the order in which it
/// is evaluated: again and again the first part that waits for none that is still to come.
///
/// # Errors
///
/// Want of memory.
pub fn evaluation<'a>(
    alloc: Global,
    checked: &'a Checked,
    number: usize,
) -> Result<Vec<Part<'a>>, AllocError>
    requires { number < length (components (tree_of checked.now)) }
    ensures { IfOk result (λ v. OfDeclaration (tree_of checked.now) number (λ i. IsEvaluation i (parts_view v.items))) }
{
    let turn = in_turn(alloc, checked, number)?;
    let program = checked.program();
    let known = tables(alloc, program)?;
    let sources = sources_of(alloc, &known)?;
    let all = all_declared(alloc, &sources)?;
    let ordered = ordered_at(alloc, program, &all, number, &turn)?;
    match ordered {
        Some(parts) => Ok(parts),
        None => unreachable!(),
    }
}
