//! The shapes of the slots of a node.

ghost use Rattle.std.specs.Prelude.{◌≡◌, ◌<◌, Contains, IfOk};
ghost use Rattle.lus_tree.specs.View.{program_view};
ghost use Rattle.lus_meaning.specs.ClockFaults.{components};
ghost use Rattle.lus_meaning.specs.Program.{instance_of};
ghost use Rattle.lus_meaning.specs.Refusals.{IsChecked};
ghost use Rattle.lus_meaning.specs.Slots.{width};
ghost use Rattle.lus_streams.specs.Owner.{owner_view};
ghost use Rattle.replay_laws.specs.Chosen.{slot_shapes};

use kind_num::Shape;
use lus_streams::owner::Owner;
use lus_tree::Program;
use std::alloc::{AllocError, Global};
use sys_frames::system;
use sys_terms::System;

/// The shapes of the slots of a declaration of a checked program: those of the variables of its system.
pub(crate) fn shapes(
    alloc: Global,
    program: &Program,
    node: Owner<'_>,
) -> Result<Vec<Shape>, AllocError>
    requires checked { IsChecked (program_view program.now) }
    requires declared { Contains (components (program_view program.now)) (owner_view node) }
    requires small { width (instance_of (program_view program.now) (owner_view node)) < 20001 }
    ensures { IfOk result (λ v. v.items
        ≡ slot_shapes (instance_of (program_view program.now) (owner_view node.entry))) }
{
    let System { shapes, .. } = system(alloc, program, node)?;
    Ok(shapes)
}
