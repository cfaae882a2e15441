//! Requests of memory: a refusal is answered by the builder.

ghost use Rattle.std.specs.Prelude.{◌≡◌, [], ◌∷◌, ◌++◌, IfOk, OnOk, ⊤};
ghost use Rattle.grammar.specs.Building.{Refuses};

use crate::tree::Expr;
use grammar::BuildFault;
use std::alloc::{AllocError, Global};

/// Adds one item after the others, or refuses for want of memory.
pub fn push_or_refuse<T: Drop>(items: &mut Vec<T>, item: T) -> Result<(), BuildFault>
    ensures ok { OnOk result (items.new.items ≡ items.old.items ++ item ∷ []) }
    ensures memory { Refuses result ⊤ }
{
    items.push(item).map_err(AllocError::from).map_err(refused)
}

/// Moves an expression into a box, or refuses for want of memory.
pub fn boxed(alloc: Global, expr: Expr) -> Result<Box<Expr>, BuildFault>
    ensures ok { IfOk result (λ b. b.value ≡ expr) }
    ensures memory { Refuses result ⊤ }
{
    Box::new(alloc, expr)
        .map_err(AllocError::from)
        .map_err(refused)
}

/// Returns the refusal for want of memory.
fn refused(_error: AllocError) -> BuildFault
    ensures { result ≡ BuildFault.Memory }
{
    BuildFault::Memory
}
