//! The parts of an instant in the order in which they are evaluated.

ghost use Rattle.std.specs.Prelude.{IfOk, MatchOption, length};
ghost use Rattle.lus_tree.specs.View.{program_view};
ghost use Rattle.evaluation_parts.specs.PartViews.{parts_view};
ghost use Rattle.evaluation_parts.specs.Unfolded.{unfolded};
ghost use Rattle.evaluation_parts.specs.Views.{all_view, frame_instance};
ghost use Rattle.evaluation_order.specs.Ordered.{AreStuck, IsOrdered, OfPlace};

use crate::picked::picked;
use crate::waits::order_of;
use evaluation_parts::frame::{Declared, Frame};
use evaluation_parts::part::Part;
use lus_tree::Program;
use std::alloc::{AllocError, Global};

/// The parts of an instant of a frame, again and again the first that waits for none that is still to come; none where
/// some are left and each of them waits for one of them.
///
/// # Errors
///
/// Want of memory.
pub fn ordered<'a>(
    alloc: Global,
    frame: Frame<'a, '_>,
    parts: &[Part<'a>],
) -> Result<Option<Vec<Part<'a>>>, AllocError>
    ensures { IfOk result (λ o. MatchOption o (AreStuck (frame_instance frame.entry) (parts_view parts.now))
        (λ v. IsOrdered (frame_instance frame.entry) (parts_view parts.now) (parts_view v.items))) }
{
    match order_of(alloc, frame, parts)? {
        Some(order) => Ok(Some(picked(alloc, &order, parts)?)),
        None => Ok(None),
    }
}

/// The same of the frame of the declaration of a place among those of its program; none where there is none.
///
/// # Errors
///
/// Want of memory.
pub fn ordered_at<'a, 't>(
    alloc: Global,
    program: &'a Program,
    all: &'t [Declared<'a, 't>],
    place: usize,
    parts: &[Part<'a>],
) -> Result<Option<Vec<Part<'a>>>, AllocError>
    ensures { IfOk result (λ o. OfPlace (all_view all.now) place (λ t. MatchOption o
        (AreStuck (unfolded (program_view program.now) (all_view all.now) (length program.now.decls.items) t)
        (parts_view parts.now))
        (λ v. IsOrdered (unfolded (program_view program.now) (all_view all.now) (length program.now.decls.items) t)
        (parts_view parts.now) (parts_view v.items)))) }
{
    match all.get(place) {
        Some(declared) => {
            let frame = Frame {
                program,
                all,
                depth: program.decls.len(),
                declared,
            };
            ordered(alloc, frame, parts)
        }
        None => Ok(None),
    }
}
