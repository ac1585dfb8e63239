//! Reads the expression of an item.

ghost use Rattle.std.specs.Prelude.{◌≡◌, ◌<◌, ◌≤◌, length, take, IfOk, IfErr};
ghost use Rattle.lus_tree.specs.Reason.{refusal_view};
ghost use Rattle.lus_tree.specs.View.{expr_view};
ghost use Rattle.lus_grammar.specs.Answers.{IsNoText, IsText, Reads, Refuses};
ghost use Rattle.lus_grammar.specs.Phrase.{limited, Expression};
ghost use Rattle.lus_grammar.specs.Source.{AreTokens};
ghost use Rattle.lus_grammar.specs.Stream.{stream};
ghost use Rattle.lus_grammar.specs.Trees.{expression_of};
ghost use Rattle.lus_reader.specs.View.{counts_view};

use crate::counts::Counts;
use crate::expression::read_expression;
use crate::refusal::{place_at, too_large, unexpected};
use crate::stop::Stop;
use lus_lexer::Token;
use lus_tree::{Expr, Refusal, What};
use std::alloc::Global;

/// The most tokens of an expression.
const LIMIT: usize = 1000;

/// Reads the longest expression at a token, of at most 1,000 tokens, and counts its occurrences.
/// The number that is returned with it is that of the first token behind it.
///
/// It is refused at the first token that no expression goes on with, or at the 1,001st; behind the
/// last token that is the end of the source. Under `Memory` the place says nothing.
pub fn read_expr(
    alloc: Global,
    tokens: &[Token],
    bytes: &[u8],
    from: u32,
    counts: &mut Counts,
) -> Result<(Expr, u32), Refusal>
    requires cut { AreTokens bytes.now tokens.now }
    requires small { length bytes.now ≤ 1048576 }
    requires inside { from ≤ length tokens.now }
    ensures found { IfOk result (λ r. IsText expression_of (stream bytes.now tokens.now)
        (limited Expression) from (counts_view counts.old) r.1 (counts_view counts.new)
        (expr_view r.0)) }
    ensures refused { IfErr result (λ e. IsNoText (stream bytes.now tokens.now)
        (limited Expression) from (counts_view counts.old) (refusal_view e)) }
    ensures run { IfOk result (λ r. Reads expression_of (stream bytes.now tokens.now)
        (limited Expression) from (counts_view counts.old) r.1 (counts_view counts.new)
        (expr_view r.0)) }
    ensures stop { IfErr result (λ e. Refuses (stream bytes.now tokens.now)
        (limited Expression) from (counts_view counts.old) (refusal_view e)) }
    ensures kept { IfErr result (λ e. counts.new ≡ counts.old) }
    ensures inside { IfOk result (λ r. (from < r.1) × (r.1 ≤ length tokens.now)) }
{
    let from = from as usize;
    let wall = from + LIMIT;
    match read_expression(alloc, front(tokens, wall + 1), bytes, from, *counts) {
        Ok(found) => {
            if found.next > wall {
                return Err(too_large(tokens, bytes, wall));
            }
            *counts = found.counts;
            Ok((Box::into_inner(found.expr), found.next as u32))
        }
        Err(Stop::Unexpected(at)) => {
            if at > wall {
                return Err(too_large(tokens, bytes, wall));
            }
            Err(unexpected(alloc, tokens, bytes, at))
        }
        Err(Stop::Memory) => Err(Refusal {
            at: place_at(tokens, bytes, from),
            what: What::Memory,
        }),
    }
}

/// The first tokens, as many as said, or all. What is read of them needs no more stack than an
/// expression of that many tokens.
fn front<'t>(tokens: &'t [Token], count: usize) -> &'t [Token]
    ensures { result.now ≡ take count tokens.now }
{
    if count < tokens.len() {
        &tokens[..count]
    } else {
        tokens
    }
}
