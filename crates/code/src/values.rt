//! What assignments make.

ghost use Rattle.std.specs.Prelude.{◌≡◌};
ghost use Rattle.code.specs.Values.{stored};

use arith::binop;
use grammar::StoreOp;

/// Returns what an assignment makes of the variable's value and its right side.
#[inline(always)]
#[tactic(auto, unfolding(crate::specs::Values::stored))]
pub fn stored(op: StoreOp, old: i32, x: i32) -> i32
    ensures { result ≡ stored op old x }
{
    match op.op() {
        None => x,
        Some(op) => binop(op, old, x),
    }
}
