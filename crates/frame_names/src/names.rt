//! The names of all frames of a declaration.

ghost use Rattle.std.specs.Prelude.{◌≡◌, IfOk};
ghost use Rattle.lus_tree.specs.View.{program_view};
ghost use Rattle.lus_meaning.specs.Refusals.{IsChecked};
ghost use Rattle.frame_names.specs.Slots.{KnowsSlots};
ghost use Rattle.frame_names.specs.Views.{slot_by};

use crate::tables::{Known, all_known};
use crate::walk::{number_there, walked};
use lus_layouts::laws::frames_fit;
use lus_meaning::names_once;
use lus_tree::Program;
use sight_laws::laws::callees_are_there;
use std::alloc::{AllocError, Global};
use sys_places::laws::{own_variables_stand, stands_at_calls, stands_at_root};
use sys_tables::tables::tables;

/// The names of all frames of a declaration, with the numbers of their slots: what is known of each declaration of its
/// program, once for all frames, and the number of the declaration.
#[derive(Drop)]
pub struct FrameNames {
    all: Vec<Known>,
    root: usize,
}

impl FrameNames {
    /// The number of the slot of a name in the frame at the end of a way of calls, which are counted from 1; none where
    /// the way leads to no frame, or the name is no stream of the frame's declaration. It takes no memory, and
    /// walks the way alone.
    pub fn slot(&self, way: &[u32], name: &str) -> Option<u32>
        ensures { result ≡ slot_by self.now way.now name.now }
    {
        match walked(&self.all, self.root, way) {
            Some(standing) => number_there(&self.all, standing, name),
            None => None,
        }
    }
}

/// The names of all frames of the declaration of a checked program with that number, constants left out.
///
/// # Errors
///
/// Want of memory.
pub fn frame_names(alloc: Global, program: &Program, place: usize) -> Result<FrameNames, AllocError>
    requires checked { IsChecked (program_view program.now) }
    // Where the declaration's system has at most 20,000 variables, each slot has the number that its name has there.
    ensures { IfOk result (λ f. KnowsSlots (program_view program.now) place (slot_by f)) }
{
    names_once();
    frames_fit();
    callees_are_there();
    stands_at_root();
    stands_at_calls();
    own_variables_stand();
    let tables = tables(alloc, program)?;
    Ok(FrameNames {
        all: all_known(alloc, &tables)?,
        root: place,
    })
}
