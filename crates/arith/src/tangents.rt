//! Tangents, scaled by 100,000, and the degrees that they belong to.

ghost use Rattle.std.specs.Prelude.{◌≡◌, ◌<◌, ◌≤◌, pos, unsigned_abs};
ghost use Rattle.arith.specs.Tangent.{tangent_of};
ghost use Rattle.arith.specs.Arctangent.{bound_of, degrees_reached, arctangent_of};

use crate::degrees::norm_degree;
use crate::tables::tangent_entry;

/// The number at which 90 degrees begin, which have no tangent of their own: twice the tangent of 89.
const UPRIGHT_BOUND: u32 = 11_457_992;

/// Returns the tangent of any number of degrees, scaled by 100,000; at 90 and 270 it is the greatest number of 32 bits
/// (docs/numbers.md, "Tangent").
#[tactic(auto, unfolding(crate::specs::Tangent::tangent_of, crate::specs::Tangent::tangent_at))]
pub fn tan(degrees: i32) -> i32
    ensures { result ≡ tangent_of degrees }
{
    match norm_degree(degrees) % 180 {
        90 => i32::MAX,
        degree if degree < 90 => tangent_entry(degree) as i32,
        degree => -(tangent_entry(180 - degree) as i32),
    }
}

/// Returns the degree from -90 to 90 that any number belongs to as a tangent scaled by 100,000 (docs/numbers.md,
/// "Arctangent").
#[tactic(auto, unfolding(crate::specs::Arctangent::arctangent_of))]
pub fn atan(ratio: i32) -> i32
    ensures value { result ≡ arctangent_of ratio }
    ensures within_quarter { unsigned_abs result ≤ 90 }
{
    let degrees = degrees_reached(ratio.unsigned_abs());
    if ratio < 0 { -degrees } else { degrees }
}

/// Counts the degrees from 1 to 90 that begin at a number or before it. Each begins after the one
/// before it, so a binary search finds the last of them.
fn degrees_reached(size: u32) -> i32
    ensures value { result ≡ pos (degrees_reached size) }
    ensures within_quarter { unsigned_abs result ≤ 90 }
{
    let mut reached = 0u16;
    let mut missed = 91u16;
    'halves: while reached + 1 < missed {
        let middle = (reached + missed) / 2;
        if bound(middle) <= size {
            reached = middle;
        } else {
            missed = middle;
        }
    }
    i32::from(reached)
}

/// Returns the number at which a degree from 1 to 90 begins: half way between the tangent before it and its own.
#[tactic(auto, unfolding(crate::specs::Arctangent::bound_of))]
fn bound(degree: u16) -> u32
    requires from_one { 1 ≤ degree }
    requires to_upright { degree ≤ 90 }
    ensures { result ≡ bound_of degree }
{
    if degree < 90 {
        (tangent_entry(degree - 1) + tangent_entry(degree)) / 2
    } else {
        UPRIGHT_BOUND
    }
}
