//! Laws of the numbers: each function does nothing, and what it ensures is the law. docs/numbers.md
//! states each beside the rule that it is about.

ghost use Rattle.std.specs.Prelude.{◌≡◌, ◌<◌, ◌≤◌, pos, ◌<ℤ◌};
ghost use Rattle.std.specs.List.Sorted.{IsStrictlyIncreasing};
ghost use Rattle.arith.specs.Table.{tangents};
ghost use Rattle.arith.specs.Degree.{degree_of};
ghost use Rattle.arith.specs.Rounds.{IsDegreeOf};
ghost use Rattle.arith.specs.NearCircle.{IsNearlyOnCircle};
ghost use Rattle.arith.specs.Bearing.{projection_of, bearing_of};
ghost use Rattle.arith.specs.KnownValues.{KnownOperators, OperatorValues, DegreeValues, RootValues, BearingValues};

/// Proves that the degree of a number is 0 to 359 and differs from the number by whole rounds.
pub fn degree_differs_by_rounds(number: i32)
    ensures { IsDegreeOf number (degree_of number) }
{}

/// Proves that for 0 to 90 degrees the squares of sine and cosine add up to the square of the scale, 10^10, within
/// 150,000.
pub fn circle_is_nearly_round(degree: u16)
    requires { degree ≤ 90 }
    ensures { IsNearlyOnCircle degree }
{}

/// Proves that the tangents rise from 0 to 89 degrees.
pub fn tangents_rise()
    ensures { IsStrictlyIncreasing tangents }
{}

/// Proves that a point other than the origin reaches forward in the direction of its bearing.
pub fn bearing_points_forward(dx: i32, dy: i32)
    requires { dx ≡ pos 0 → dy ≡ pos 0 → ⊥ }
    ensures { pos 0 <ℤ projection_of dx dy (bearing_of dx dy) }
{}

/// Proves that the definitions give these known values.
pub fn known_values()
    ensures each { KnownOperators }
    ensures operators { OperatorValues }
    ensures degrees { DegreeValues }
    ensures roots { RootValues }
    ensures bearings { BearingValues }
{}
