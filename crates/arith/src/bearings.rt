//! The degree in which a point lies.

ghost use Rattle.std.specs.Prelude.{◌≡◌, ◌<◌, ◌≤◌, ◌*◌, nat_le, pos, unsigned_abs, map};
ghost use Rattle.std.specs.List.{position, range_with_len};
ghost use Rattle.std.specs.Ordering.{int_eq};
ghost use Rattle.arith.specs.Degree.{apart};
ghost use Rattle.arith.specs.Bearing.{projection_of, projections, bearing_of};
ghost use Rattle.arith.specs.Furthest.{IsBearing, leads, IsGreatest};

use crate::circle::{cosine_at, sine_at};
use crate::tables::{LANES, round_entries};
use std::simd::prelude::*;

/// The greatest difference of two positions on an axis that a bearing is worked out of, in whole metres.
pub const MOST_DIFFERENCE: u16 = 999;

/// How often the lanes fill the round of 360 degrees.
const CHUNKS: u16 = 45;

/// Returns the bearing of a point `dx` metres east and `dy` metres north, both at most `MOST_DIFFERENCE` in size: the
/// least degree, 0 to 359, at which it reaches furthest (docs/numbers.md, "Bearing").
pub fn bearing(dx: i32, dy: i32) -> u16
    requires dx_in_field { unsigned_abs dx ≤ MOST_DIFFERENCE }
    requires dy_in_field { unsigned_abs dy ≤ MOST_DIFFERENCE }
    ensures furthest { IsBearing dx dy result }
    ensures value { result ≡ bearing_of dx dy }
{
    let furthest = greatest_projection(dx, dy);
    for chunk in 0..CHUNKS {
        if let Some(lane) = lane_of_projection(dx, dy, chunk, furthest) {
            return LANES * chunk + lane;
        }
    }
    0
}

/// Reports whether the bearing of a point `dx` metres east and `dy` metres north, both at most `MOST_DIFFERENCE` in
/// size and not both 0, differs from a degree from 0 to 359 by at most `spread` degrees, fewer than 90, round the
/// circle. It compares the reaches at the ends of this arc with those just beyond them, and works out no bearing.
pub fn bears_within(dx: i32, dy: i32, degree: u16, spread: u16) -> bool
    requires dx_in_field { unsigned_abs dx ≤ MOST_DIFFERENCE }
    requires dy_in_field { unsigned_abs dy ≤ MOST_DIFFERENCE }
    requires elsewhere { dx ≡ pos 0 → dy ≡ pos 0 → ⊥ }
    requires degree { degree < 360 }
    requires spread { spread < 90 }
    ensures { result ≡ nat_le (apart (bearing_of dx dy) degree) spread }
{
    let first = (degree + 360 - spread) % 360;
    let last = (degree + spread) % 360;
    leads(dx, dy, first, (first + 359) % 360) && leads(dx, dy, last, (last + 1) % 360)
}

/// Reports whether a point reaches further at one degree than at another; of equals the lesser degree comes first.
#[tactic(auto, unfolding(crate::specs::Furthest::leads))]
fn leads(dx: i32, dy: i32, degree: u16, other: u16) -> bool
    requires dx_in_field { unsigned_abs dx ≤ MOST_DIFFERENCE }
    requires dy_in_field { unsigned_abs dy ≤ MOST_DIFFERENCE }
    requires degree { degree < 360 }
    requires other { other < 360 }
    ensures { result ≡ leads dx dy degree other }
{
    let here = projection(dx, dy, degree);
    let there = projection(dx, dy, other);
    if degree < other {
        there <= here
    } else {
        there < here
    }
}

/// Returns how far a point reaches in the direction of a degree, scaled by 100,000.
#[tactic(auto, using(crate::proofs::BearingLemmas::reach_steps), unfolding(crate::specs::Bearing::projection_of))]
fn projection(dx: i32, dy: i32, degree: u16) -> i32
    requires dx_in_field { unsigned_abs dx ≤ MOST_DIFFERENCE }
    requires dy_in_field { unsigned_abs dy ≤ MOST_DIFFERENCE }
    requires degree { degree < 360 }
    ensures { result ≡ projection_of dx dy degree }
{
    dx * cosine_at(degree) + dy * sine_at(degree)
}

/// Returns the greatest reach of a point over the round, scaled by 100,000.
fn greatest_projection(dx: i32, dy: i32) -> i32
    requires dx_in_field { unsigned_abs dx ≤ MOST_DIFFERENCE }
    requires dy_in_field { unsigned_abs dy ≤ MOST_DIFFERENCE }
    ensures { IsGreatest (projections dx dy) result }
{
    let mut most = chunk_projections(dx, dy, 0);
    for chunk in 1..CHUNKS {
        most = most.simd_max(chunk_projections(dx, dy, chunk));
    }
    greatest(most.to_array())
}

/// Returns how far a point reaches in the direction of each degree of a chunk, scaled by 100,000.
#[inline(always)]
fn chunk_projections(dx: i32, dy: i32, chunk: u16) -> i32x8
    requires dx_in_field { unsigned_abs dx ≤ MOST_DIFFERENCE }
    requires dy_in_field { unsigned_abs dy ≤ MOST_DIFFERENCE }
    requires on_the_round { chunk < CHUNKS }
    ensures { result ≡ map (projection_of dx dy) (range_with_len (LANES * chunk) LANES) }
{
    let first = LANES * chunk;
    let cosines = round_entries(first + 90);
    let sines = round_entries(first);
    i32x8::splat(dx) * cosines + i32x8::splat(dy) * sines
}

/// Returns the greatest of eight numbers.
#[inline(always)]
fn greatest(numbers: [i32; 8]) -> i32
    ensures { IsGreatest numbers result }
{
    let mut most = numbers[0];
    for number in numbers {
        most = most.max(number);
    }
    most
}

/// Returns the first lane of a chunk at whose degree a point reaches this far, if any does.
#[inline(always)]
fn lane_of_projection(dx: i32, dy: i32, chunk: u16, reach: i32) -> Option<u16>
    requires dx_in_field { unsigned_abs dx ≤ MOST_DIFFERENCE }
    requires dy_in_field { unsigned_abs dy ≤ MOST_DIFFERENCE }
    requires on_the_round { chunk < CHUNKS }
    ensures { result ≡ position (int_eq reach) (map (projection_of dx dy) (range_with_len (LANES * chunk) LANES)) }
{
    let equal = chunk_projections(dx, dy, chunk)
        .simd_eq(i32x8::splat(reach))
        .to_bitmask();
    if equal == 0 {
        return None;
    }
    Some(equal.trailing_zeros() as u16)
}
