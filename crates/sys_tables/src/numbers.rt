//! The numbers of the variables of a frame that stands at a number.

ghost use Rattle.std.specs.Prelude.{◌≡◌, ◌<◌, ◌^◌};
ghost use Rattle.lus_limits.specs.Calls.{way_of};
ghost use Rattle.sys_conditions.specs.Views.{manner_view};
ghost use Rattle.sys_tables.specs.Numbers.{CallHasRoom, HasRoom, behind_own, first_held, first_memory, first_start, frame_base, keeps_so_far, so_far_number};
ghost use Rattle.sys_tables.specs.Views.{linked_view, table_view};

use crate::table::{Linked, Table};
use lus_limits::Way;
use sys_conditions::occurrences::Manner;

/// How a call runs.
pub fn way_of(manner: Manner<'_>) -> Way
    ensures { result ≡ way_of (manner_view manner.entry) }
{
    match manner {
        Manner::Plain => Way::Plain,
        Manner::While(_) => Way::Condition,
        Manner::Import(_) => Way::Import,
    }
}

/// Whether a frame that runs so keeps whether the assumptions were true so far.
pub fn keeps_so_far(table: &Table<'_>, way: Way) -> bool
    ensures { result ≡ keeps_so_far way (table_view table.now) }
{
    match way {
        Way::Import => false,
        Way::Plain | Way::Condition => table.contract,
    }
}

/// The number of the first memory of a frame.
pub(crate) fn first_memory(table: &Table<'_>, base: u32) -> u32
    requires { so_far_number (table_view table.now) base < 2 ^ 32 }
    ensures { result ≡ first_memory (table_view table.now) base }
{
    base + 1 + table.streams.len() as u32
}

/// The number of the first `->` of a frame.
pub(crate) fn first_start(table: &Table<'_>, base: u32) -> u32
    requires { so_far_number (table_view table.now) base < 2 ^ 32 }
    ensures { result ≡ first_start (table_view table.now) base }
{
    first_memory(table, base) + table.memories.len() as u32
}

/// The number of what says whether the assumptions were true so far, where the frame keeps that.
pub fn so_far_number(table: &Table<'_>, base: u32) -> u32
    requires { so_far_number (table_view table.now) base < 2 ^ 32 }
    ensures { result ≡ so_far_number (table_view table.now) base }
{
    first_start(table, base) + table.starts.len() as u32
}

/// The first number behind the own variables of a frame that runs so.
pub fn behind_own(table: &Table<'_>, way: Way, base: u32) -> u32
    requires { behind_own way (table_view table.now) base < 2 ^ 32 }
    ensures { result ≡ behind_own way (table_view table.now) base }
{
    base + table.layout.own_count(way) as u32
}

/// The number at which the frame of a call stands, by the first one behind the caller's own variables.
pub fn frame_base(from: u32, linked: &Linked<'_>) -> u32
    requires { CallHasRoom from (linked_view linked.now) }
    ensures { result ≡ frame_base from (linked_view linked.now) }
{
    from + linked.slots.frame as u32
}

/// The number of the first variable that holds an output of a call, by the first one behind the caller's own variables.
pub(crate) fn first_held(from: u32, linked: &Linked<'_>) -> u32
    requires { CallHasRoom from (linked_view linked.now) }
    ensures { result ≡ first_held from (linked_view linked.now) }
{
    from + linked.slots.frame.saturating_sub(linked.slots.held) as u32
}
