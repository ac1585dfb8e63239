//! The sizes of terms that are joined one after the other.

ghost use Rattle.std.specs.Prelude.{◌≡◌};
ghost use Rattle.lus_limits.specs.Peaks.{alone, by_and, by_or, followed, no_chain, put};
ghost use Rattle.lus_limits.specs.Measured.{size_view};
ghost use Rattle.lus_limits.specs.Chained.{chain_view};
ghost use Rattle.lus_limits.specs.SizeCuts.{cut_chain, cut_term};

use crate::term_size::{Size, cut, cut_levels, greatest, leaf, no_size, sum_parts};

/// A list of terms: whether there is none, all of them joined, and how they lengthen a term before them: by so many
/// levels, to these levels at least, and by these parts.
#[derive(Clone, Copy)]
pub struct Chain {
    pub is_none: bool,
    pub whole: Size,
    pub lift: u32,
    pub behind: Size,
}

/// No terms.
pub(crate) fn no_chain() -> Chain
    ensures { chain_view result ≡ no_chain }
{
    Chain {
        is_none: true,
        whole: leaf(),
        lift: 0,
        behind: no_size(),
    }
}

/// A term with these behind it.
fn put(size: Size, chain: Chain) -> Size
    ensures { size_view result ≡ cut_term (put (size_view size) (chain_view chain)) }
{
    let levels = greatest(size.levels.saturating_add(chain.lift), chain.behind.levels);
    Size {
        levels: cut_levels(levels),
        parts: sum_parts(size.parts, chain.behind.parts),
    }
}

/// All of one list joined, or, where it is empty, of the other.
fn whole(first: Chain, second: Chain) -> Size
    ensures { size_view result ≡ (cut_chain (followed (chain_view first) (chain_view second))).whole }
{
    if first.is_none {
        cut(second.whole)
    } else {
        put(first.whole, second)
    }
}

/// One list behind the other.
pub(crate) fn followed(first: Chain, second: Chain) -> Chain
    ensures { chain_view result ≡ cut_chain (followed (chain_view first) (chain_view second)) }
{
    Chain {
        is_none: first.is_none && second.is_none,
        whole: whole(first, second),
        lift: cut_levels(first.lift.saturating_add(second.lift)),
        behind: put(first.behind, second),
    }
}

/// One term that is joined by a conjunction.
pub(crate) fn asked(size: Size) -> Chain
    ensures { chain_view result ≡ cut_chain (alone by_and (size_view size)) }
{
    Chain {
        is_none: false,
        whole: cut(size),
        lift: 1,
        behind: Size {
            levels: cut_levels(size.levels.saturating_add(1)),
            parts: sum_parts(size.parts, 1),
        },
    }
}

/// One term that is joined by a disjunction.
pub(crate) fn offered(size: Size) -> Chain
    ensures { chain_view result ≡ cut_chain (alone by_or (size_view size)) }
{
    Chain {
        is_none: false,
        whole: cut(size),
        lift: 3,
        behind: Size {
            levels: cut_levels(size.levels.saturating_add(3)),
            parts: sum_parts(size.parts, 4),
        },
    }
}
