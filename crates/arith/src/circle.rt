//! Sines and cosines, scaled by 100,000.

ghost use Rattle.std.specs.Prelude.{◌≡◌, ◌<◌, ◌≤◌, unsigned_abs};
ghost use Rattle.arith.specs.Circle.{sine_at, cosine_at, sine_of, cosine_of};

use crate::degrees::norm_degree;
use crate::tables::round_entry;

/// Returns the sine of any number of degrees, scaled by 100,000 (docs/numbers.md, "Sine and cosine").
#[tactic(auto, unfolding(crate::specs::Circle::sine_of))]
pub fn sin(degrees: i32) -> i32
    ensures value { result ≡ sine_of degrees }
    ensures within_scale { unsigned_abs result ≤ 100000 }
{
    sine_at(norm_degree(degrees))
}

/// Returns the cosine of any number of degrees, scaled by 100,000 (docs/numbers.md, "Sine and cosine").
#[tactic(auto, unfolding(crate::specs::Circle::cosine_of))]
pub fn cos(degrees: i32) -> i32
    ensures value { result ≡ cosine_of degrees }
    ensures within_scale { unsigned_abs result ≤ 100000 }
{
    cosine_at(norm_degree(degrees))
}

/// Returns the sine of a degree from 0 to 359, scaled by 100,000 (docs/numbers.md, "Sine and cosine").
/// For a heading, which is a degree of the round already.
pub fn sine_at(degree: u16) -> i32
    requires { degree < 360 }
    ensures value { result ≡ sine_at degree }
    ensures within_scale { unsigned_abs result ≤ 100000 }
{
    round_entry(degree)
}

/// Returns the cosine of a degree from 0 to 359, scaled by 100,000 (docs/numbers.md, "Sine and cosine").
/// For a heading, which is a degree of the round already.
#[tactic(auto, unfolding(crate::specs::Circle::cosine_at))]
pub fn cosine_at(degree: u16) -> i32
    requires { degree < 360 }
    ensures value { result ≡ cosine_at degree }
    ensures within_scale { unsigned_abs result ≤ 100000 }
{
    round_entry(degree + 90)
}
