//! The language profiles.

ghost use Rattle.std.specs.Prelude.{◌≡◌, ◌≤◌};
ghost use Rattle.grammar.specs.ProfileNumbers.{first_profile, second_profile, IsProfile};
ghost use Rattle.grammar.specs.ProfileNumbers.{profile_numbered};

use std::marker::Model;

/// The greatest number of a profile; the least is 1.
pub const MOST_PROFILE: u32 = 2;

/// A language profile: what `&&` and `||` evaluate, and how much a program may use. There are two.
#[derive(Clone, Copy, Debug, PartialEq, Eq)]
pub struct Profile {
    instructions: u16,
    words: u16,
    frames: u16,
    short_circuit: bool,
}

impl Model for Profile {
    ghost use Rattle.grammar.specs.Profile.{Profile};
    ghost use Rattle.grammar.specs.ProfileNumbers.{IsProfile};
    ghost use Rattle.grammar.specs.Laws.ProfileParts.{profile_of};

    ghost Value = { Profile };

    ghost view = { λ p. profile_of p.instructions p.words p.frames p.short_circuit };

    ghost invariant = { λ p. IsProfile (view p) };

    ghost inverse = { λ p. record {
      instructions = p.instructions;
      words = p.words;
      frames = p.frames;
      short_circuit = p.short_circuit;
    } };
}

impl Profile {
    /// Makes the profile of a number.
    pub fn numbered(number: u32) -> Profile
        requires least { 1 ≤ number }
        requires most { number ≤ MOST_PROFILE }
        ensures { result ≡ profile_numbered number }
    {
        if number == 1 {
            Profile::first()
        } else {
            Profile::second()
        }
    }

    /// Makes the first profile: `&&` and `||` evaluate both sides. A program has at most 2,000 instructions, 500 words
    /// of stack and 64 frames.
    #[tactic(auto, unfolding(crate::specs::ProfileNumbers::first_profile))]
    pub fn first() -> Profile
        ensures { result ≡ first_profile }
    {
        Profile {
            instructions: 2000,
            words: 500,
            frames: 64,
            short_circuit: false,
        }
    }

    /// Makes the second profile: `&&` and `||` leave out their right side, as in C. A program has at most 4,000
    /// instructions, 1,000 words of stack and 128 frames.
    #[tactic(auto, unfolding(crate::specs::ProfileNumbers::second_profile))]
    pub fn second() -> Profile
        ensures { result ≡ second_profile }
    {
        Profile {
            instructions: 4000,
            words: 1000,
            frames: 128,
            short_circuit: true,
        }
    }

    /// Returns the most instructions of a program, with the NOP that ends its code.
    pub fn instructions(self) -> u16
        ensures value { result ≡ self.instructions }
        ensures is_profile { IsProfile self }
    {
        self.instructions
    }

    /// Returns the words of a robot's stack.
    pub fn words(self) -> u16
        ensures value { result ≡ self.words }
        ensures is_profile { IsProfile self }
    {
        self.words
    }

    /// Returns the most frames that are open at once.
    pub fn frames(self) -> u16
        ensures value { result ≡ self.frames }
        ensures is_profile { IsProfile self }
    {
        self.frames
    }

    /// Reports whether `&&` and `||` leave out their right side.
    pub fn short_circuit(self) -> bool
        ensures value { result ≡ self.short_circuit }
        ensures is_profile { IsProfile self }
    {
        self.short_circuit
    }
}
