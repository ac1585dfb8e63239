//! The shapes of the variables of a frame.

ghost use Rattle.std.specs.Prelude.{◌≡◌, ◌++◌, OnOk, map};
ghost use Rattle.sys_meaning.specs.System.{shape_of};
ghost use Rattle.sys_parts.specs.Constants.{constant_view};
ghost use Rattle.sys_conditions.specs.Views.{memory_view, start_view};
ghost use Rattle.sys_tables.specs.Views.{named_view, table_view};
ghost use Rattle.sys_texts.specs.Texts.{sort_by};
ghost use Rattle.sys_texts.specs.Views.{output_view, sight_view};
ghost use Rattle.sys_frames.specs.Walked.{held_shapes, own_shapes, so_far_shapes, start_shapes};

use kind_num::Shape;
use lus_tree::Sort;
use std::alloc::AllocError;
use sys_conditions::occurrences::{Memory, Start};
use sys_parts::constant::Constant;
use sys_tables::table::{Named, Table};
use sys_texts::sight::{Output, Sight};
use sys_texts::sorts::sort_of;

/// The shape of a type.
fn shape_of(sort: Sort) -> Shape
    ensures { result ≡ shape_of sort }
{
    match sort {
        Sort::Bool => Shape::Flag,
        Sort::Int => Shape::Number,
    }
}

/// The shapes, and behind them those of streams.
fn push_streams(shapes: &mut Vec<Shape>, streams: &[Named<'_>]) -> Result<(), AllocError>
    ensures { OnOk result (shapes.new.items ≡ shapes.old.items
        ++ map (λ v. shape_of v.variable.sort) (map named_view streams.now)) }
{
    for stream in streams {
        shapes.push(shape_of(stream.param.sort))?;
    }
    Ok(())
}

/// The shapes, and behind them those of memories.
fn push_memories(
    shapes: &mut Vec<Shape>,
    sight: &Sight<'_>,
    memories: &[Memory<'_>],
) -> Result<(), AllocError>
    ensures { OnOk result (shapes.new.items ≡ shapes.old.items
        ++ map (λ u. shape_of (sort_by (sight_view sight.now) u.operand)) (map memory_view memories.now)) }
{
    for memory in memories {
        shapes.push(shape_of(sort_of(sight, memory.operand)))?;
    }
    Ok(())
}

/// The shapes, and behind them those of starts.
fn push_starts(shapes: &mut Vec<Shape>, starts: &[Start<'_>]) -> Result<(), AllocError>
    ensures { OnOk result (shapes.new.items ≡ shapes.old.items
        ++ start_shapes (map start_view starts.now)) }
{
    for _start in starts {
        shapes.push(Shape::Flag)?;
    }
    Ok(())
}

/// The shapes, and behind them that of what says whether the assumptions were true so far.
fn push_so_far(shapes: &mut Vec<Shape>, so_far: Option<u32>) -> Result<(), AllocError>
    ensures { OnOk result (shapes.new.items ≡ shapes.old.items ++ so_far_shapes so_far) }
{
    if let Some(_) = so_far {
        shapes.push(Shape::Flag)?;
    }
    Ok(())
}

/// The shapes, and behind them those of the variables that a frame has of its own.
pub(crate) fn push_own_shapes(
    shapes: &mut Vec<Shape>,
    table: &Table<'_>,
    sight: &Sight<'_>,
    so_far: Option<u32>,
) -> Result<(), AllocError>
    ensures { OnOk result (shapes.new.items ≡ shapes.old.items
        ++ own_shapes (sight_view sight.now) (table_view table.now) so_far) }
{
    shapes.push(Shape::Flag)?;
    push_streams(shapes, &table.streams)?;
    push_memories(shapes, sight, &table.memories)?;
    push_starts(shapes, &table.starts)?;
    push_so_far(shapes, so_far)
}

/// The shapes, and behind them those of what is held of outputs, one for each that has a default.
pub(crate) fn push_held_shapes(
    shapes: &mut Vec<Shape>,
    outputs: &[Output],
    defaults: &[Constant],
) -> Result<(), AllocError>
    ensures { OnOk result (shapes.new.items ≡ shapes.old.items
        ++ held_shapes (map output_view outputs.now) (map constant_view defaults.now)) }
{
    match (outputs, defaults) {
        ([], _) | (_, []) => Ok(()),
        ([output, outputs @ ..], [_, defaults @ ..]) => {
            shapes.push(shape_of(output.sort))?;
            push_held_shapes(shapes, outputs, defaults)
        }
    }
}
