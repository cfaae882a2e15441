//! The random words of a match, in the order in which they are drawn.

ghost use Rattle.std.specs.Prelude.{◌≡◌, ◌≤◌, ◌+◌, ℕ, pos};
ghost use Rattle.arena.specs.Field.{Field};
ghost use Rattle.arena.specs.Random.{generator, random_word};
ghost use Rattle.arena.specs.Answer.{random_limit, random_number};

use crate::rules::MOST_RANDOM_LIMIT;
use rand_core::utils::NextWord;
use rand_pcg::Pcg32;

/// Begins the generator of a match: the seed and the match's number choose its words.
#[tactic(auto, unfolding(crate::specs::Random::generator))]
pub(crate) fn generator(seed: u64, number: u64) -> Pcg32
    ensures { result ≡ generator seed number 0 }
{
    Pcg32::new(seed, number)
}

/// Draws the next word.
pub(crate) fn draw_word(random: &mut Pcg32) -> u32
    ensures word { (seed number drawn : ℕ) → random.old ≡ generator seed number drawn
        → result ≡ random_word seed number drawn }
    ensures next { (seed number drawn : ℕ) → random.old ≡ generator seed number drawn
        → random.new ≡ generator seed number (drawn + 1) }
{
    random.next_word()
}

/// Draws a random number from 0 on and below a limit, which is first brought into 1 to 32,767.
pub(crate) fn draw_number(random: &mut Pcg32, limit: i32) -> i32
    ensures value { (field : Field) → random.old ≡ generator field.seed field.match_number field.drawn
        → result ≡ pos (random_number field limit) }
    ensures next { (seed number drawn : ℕ) → random.old ≡ generator seed number drawn
        → random.new ≡ generator seed number (drawn + 1) }
{
    let word = draw_word(random);
    (word % random_limit(limit)) as i32
}

/// Brings the limit of a random number into 1 to 32,767.
#[tactic(auto, unfolding(crate::specs::Answer::random_limit, crate::specs::Leg::clamped))]
fn random_limit(limit: i32) -> u32
    ensures value { result ≡ random_limit limit }
    ensures least { 1 ≤ result }
    ensures most { result ≤ 32767 }
{
    limit.clamp(1, MOST_RANDOM_LIMIT) as u32
}
