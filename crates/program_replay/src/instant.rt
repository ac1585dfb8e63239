//! What is evaluated at an instant of a node.

ghost use Rattle.lus_checked.specs.Program.{tree_of};
ghost use Rattle.program_replay.specs.Instants.{AreNamedParts};

use crate::named::find_named;
use evaluation_order::evaluation::evaluation;
use lus_checked::Checked;
use lus_streams::owner::Owner;
use part_resolver::resolved;
use slot_replay::{PartAt, Parts};
use std::alloc::{AllocError, Global};

/// The evaluation of an instant of the node of that name.
#[derive(Drop)]
pub(crate) struct Instant<'c> {
    pub(crate) checked: &'c Checked,
    pub(crate) name: &'c str,
}

impl Parts for Instant<'_> {
    ghost are_parts = { λ s ps. AreNamedParts (tree_of s.checked.now) s.name.now ps };

    fn in_order(&self, alloc: Global) -> Result<Vec<PartAt>, AllocError> {
        let program = self.checked.program();
        match find_named(program, self.name) {
            Some(named) => {
                let parts = evaluation(alloc, self.checked, named.place)?;
                resolved(alloc, program, Owner::Node(named.node), &parts)
            }
            None => Ok(Vec::new(alloc)),
        }
    }
}
