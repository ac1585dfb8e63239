//! Lists that grow.

ghost use Rattle.std.specs.Prelude.{◌≡◌, ◌++◌, [], ◌∷◌, IfOk, IfErr};
ghost use Rattle.lus_tree.specs.Reason.{refusal_view, memory};

use crate::look::out_of_memory;
use lus_tree::Refusal;

/// Puts a value behind the list's last one. The refusal is `Memory`, and leaves the list as it was.
pub fn push<T: Drop>(list: &mut Vec<T>, value: T) -> Result<(), Refusal>
    ensures items { IfOk result (λ u. list.new.items ≡ list.old.items ++ value ∷ []) }
    ensures memory { IfErr result (λ e. (refusal_view e).reason ≡ memory) }
    ensures kept { IfErr result (λ e. list.new.items ≡ list.old.items) }
{
    match list.push(value) {
        Ok(()) => Ok(()),
        Err(_) => Err(out_of_memory()),
    }
}
