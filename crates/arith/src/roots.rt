//! Whole square roots.

ghost use Rattle.std.specs.Prelude.{◌≡◌, ◌+◌, ◌*◌, ◌^◌, ◌<◌, ◌≤◌};
ghost use Rattle.arith.specs.Root.{root_of};
ghost use Rattle.arith.specs.GreatestRoot.{IsRoot};

/// Returns the whole square root of a number's size, the greatest n with n * n at most |a|, for any number a
/// (docs/numbers.md, "Root").
#[tactic(auto, using(crate::proofs::RootLemmas::root_rules))]
pub fn root(number: i32) -> i32
    ensures greatest { IsRoot number result }
    ensures value { result ≡ root_of number }
{
    whole_root(number.unsigned_abs()) as i32
}

/// Returns the whole square root, by Newton's iteration down from a guess above it: an iterate that leads no
/// further down comes from the root.
fn whole_root(square: u32) -> u32
    requires { square ≤ 2 ^ 31 }
    ensures fits { result * result ≤ square }
    ensures greatest { square < (result + 1) * (result + 1) }
    ensures bound { result ≤ 2 ^ 16 }
{
    if square == 0 {
        return 0;
    }
    let mut guess = guess_above(square);
    let mut next = newton_iterate(square, guess);
    while next < guess {
        guess = next;
        next = newton_iterate(square, guess);
    }
    guess
}

/// Returns a power of 2 that is above the root, and at most twice the root.
fn guess_above(square: u32) -> u32
    requires some { 0 < square }
    requires most { square ≤ 2 ^ 31 }
    ensures above { square < result * result }
    ensures bound { result ≤ 2 ^ 16 }
{
    let half = square.ilog2() / 2;
    1 << (half + 1)
}

/// Returns the mean of a guess and of how often it goes into the square: it isn't below the root, and it isn't below
/// the guess only if the guess isn't above the root.
fn newton_iterate(square: u32, guess: u32) -> u32
    requires most { square ≤ 2 ^ 31 }
    requires some { 0 < guess }
    requires bound { guess ≤ 2 ^ 16 }
    ensures above { square < (result + 1) * (result + 1) }
    ensures reached { guess ≤ result → guess * guess ≤ square }
{
    (guess + square / guess) / 2
}
