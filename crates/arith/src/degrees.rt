//! Whole degrees of the round.

ghost use Rattle.std.specs.Prelude.{◌≡◌, ◌<◌};
ghost use Rattle.arith.specs.Degree.{degree_of};

/// As many whole rounds as leave no number of degrees below 0.
const WHOLE_ROUNDS: i64 = 360 * 5_965_233;

/// Returns the degree of the round, 0 to 359, of any number of degrees: the one that differs from it by whole rounds
/// (docs/numbers.md, "Degrees").
#[tactic(auto, unfolding(crate::specs::Degree::degree_of))]
pub fn norm_degree(degrees: i32) -> u16
    ensures value { result ≡ degree_of degrees }
    ensures on_the_round { result < 360 }
{
    if degrees >= 0 && degrees < 360 {
        return degrees as u16;
    }
    ((i64::from(degrees) + WHOLE_ROUNDS) as u64 % 360) as u16
}
