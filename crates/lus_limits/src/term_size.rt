//! How many levels and parts terms have, cut one past the limits.

ghost use Rattle.std.specs.Prelude.{◌≡◌, ◌+◌, max, min};
ghost use Rattle.lus_meaning.specs.Sizes.{leaf, one, three, two};
ghost use Rattle.lus_limits.specs.Peaks.{greater, no_size};
ghost use Rattle.lus_limits.specs.SizeCuts.{cut_term, level_bound, part_bound};
ghost use Rattle.lus_limits.specs.Measured.{size_view};

/// One past the greatest levels of a term.
const LEVEL_BOUND: u32 = 4_001;

/// One past the greatest parts of a term.
const PART_BOUND: u32 = 1_000_001;

/// The levels and parts of a term, or the greatest ones of some terms.
#[derive(Clone, Copy)]
pub struct Size {
    pub levels: u32,
    pub parts: u32,
}

/// Levels, cut.
pub(crate) fn cut_levels(levels: u32) -> u32
    ensures { result ≡ min level_bound levels }
{
    if levels < LEVEL_BOUND {
        levels
    } else {
        LEVEL_BOUND
    }
}

/// Parts, cut.
fn cut_parts(parts: u32) -> u32
    ensures { result ≡ min part_bound parts }
{
    if parts < PART_BOUND {
        parts
    } else {
        PART_BOUND
    }
}

/// A sum of parts, cut.
pub(crate) fn sum_parts(left: u32, right: u32) -> u32
    ensures { result ≡ min part_bound (left + right) }
{
    cut_parts(left.saturating_add(right))
}

/// The greater of two numbers.
pub(crate) fn greatest(left: u32, right: u32) -> u32
    ensures { result ≡ max left right }
{
    if left < right { right } else { left }
}

/// A size, cut.
pub(crate) fn cut(size: Size) -> Size
    ensures { size_view result ≡ cut_term (size_view size) }
{
    Size {
        levels: cut_levels(size.levels),
        parts: cut_parts(size.parts),
    }
}

/// Of no term.
pub(crate) fn no_size() -> Size
    ensures { size_view result ≡ no_size }
{
    Size {
        levels: 0,
        parts: 0,
    }
}

/// Of a variable or a constant.
pub(crate) fn leaf() -> Size
    ensures { size_view result ≡ leaf }
{
    Size {
        levels: 1,
        parts: 1,
    }
}

/// The greater levels and the greater parts.
pub(crate) fn greater(left: Size, right: Size) -> Size
    ensures { size_view result ≡ greater (size_view left) (size_view right) }
{
    Size {
        levels: greatest(left.levels, right.levels),
        parts: greatest(left.parts, right.parts),
    }
}

/// Of a term of one.
pub(crate) fn one(inner: Size) -> Size
    ensures { size_view result ≡ cut_term (one (size_view inner)) }
{
    Size {
        levels: cut_levels(inner.levels.saturating_add(1)),
        parts: cut_parts(inner.parts.saturating_add(1)),
    }
}

/// Of a term of two.
pub(crate) fn two(left: Size, right: Size) -> Size
    ensures { size_view result ≡ cut_term (two (size_view left) (size_view right)) }
{
    let parts = left.parts.saturating_add(right.parts);
    Size {
        levels: cut_levels(greatest(left.levels, right.levels).saturating_add(1)),
        parts: cut_parts(parts.saturating_add(1)),
    }
}

/// Of a term of three.
pub(crate) fn three(first: Size, second: Size, third: Size) -> Size
    ensures { size_view result ≡ cut_term (three (size_view first) (size_view second) (size_view third)) }
{
    let levels = greatest(first.levels, greatest(second.levels, third.levels));
    let parts = second.parts.saturating_add(third.parts);
    Size {
        levels: cut_levels(levels.saturating_add(1)),
        parts: cut_parts(first.parts.saturating_add(parts).saturating_add(1)),
    }
}
