//! Orders: what a run is asked to do, as numbers.

ghost use Rattle.std.specs.Prelude.{◌≡◌, ◌<◌, ◌≤◌, true, length, map, IfSome, IsSome};
ghost use Rattle.page.specs.Orders.{AreWithin, mode_by, numbers_of, setup_by, stretch_of};

use crate::stretches::Stretch;
use arrayvec::ArrayVec;
use grammar::{MOST_PROFILE, Profile};
use series::{MOST_CYCLES, MOST_FILES, MOST_FIRST_MATCH, MOST_MATCHES, Mode, Numbers, Settings};

/// What a run is asked to do.
#[repr(C)]
#[derive(Clone, Copy)]
pub struct Order {
    /// The seed of the random numbers.
    pub seed: u64,
    /// What a run does: 0 for listings, 1 for matches. The other calls have no use for it.
    pub mode: u32,
    /// How many matches are played, 1 to 1,000,000.
    pub matches: u32,
    /// The most cycles of a match, 1 to 1,000,000,000.
    pub limit: u32,
    /// The number of the language profile, from 1.
    pub profile: u32,
    /// The number of the first match, 1 to 1,000,000.
    pub first: u32,
    /// How many rows of a film are left out, from its start. A run has no use for it.
    pub skipped: u32,
    /// How many updates are before the windows that are filmed. Only a film of windows has a use for it.
    pub from: u32,
    /// How many windows are filmed. Only a film of windows has a use for it.
    pub windows: u32,
}

impl Order {
    /// Makes the settings of a run in a mode of the files that these words name, one to four. `None` if a number is not
    /// within its limits.
    pub(crate) fn settings<'a>(&self, mode: Mode, words: &[&'a str]) -> Option<Settings<'a>>
        requires some { 0 < length words.now }
        ensures value { IfSome result (λ settings. settings ≡ setup_by mode self.now (map (λ word. word.now) words.now)) }
        ensures accepted { AreWithin self.now → length words.now ≤ MOST_FILES → IsSome result }
        ensures within { IsSome result → AreWithin self.now }
    {
        if !self.is_within() {
            return None;
        }
        let words = ArrayVec::try_from(words).ok()?;
        Some(Settings::new(mode, self.numbers(), words))
    }

    /// Returns the windows that are filmed.
    pub fn stretch(&self) -> Stretch
        ensures { result ≡ stretch_of self.now }
    {
        Stretch {
            from: self.from,
            windows: self.windows,
        }
    }

    /// Reports whether each number is within its limits.
    fn is_within(&self) -> bool
        ensures within { result ≡ true → AreWithin self.now }
        ensures accepted { AreWithin self.now → result ≡ true }
    {
        let matches = 1 <= self.matches && self.matches <= MOST_MATCHES;
        let cycles = 1 <= self.limit && self.limit <= MOST_CYCLES;
        let profile = 1 <= self.profile && self.profile <= MOST_PROFILE;
        let first = 1 <= self.first && self.first <= MOST_FIRST_MATCH;
        self.mode <= 1 && matches && cycles && profile && first
    }

    /// Returns the numbers of a run.
    fn numbers(&self) -> Numbers
        requires { AreWithin self.now }
        ensures { result ≡ numbers_of self.now }
    {
        Numbers {
            matches: self.matches,
            limit: self.limit,
            seed: self.seed,
            profile: Profile::numbered(self.profile),
            first: self.first,
        }
    }

    /// Returns the mode of a run.
    pub(crate) fn mode(&self) -> Mode
        ensures { result ≡ mode_by self.now.mode }
    {
        if self.mode == 0 {
            Mode::Listing
        } else {
            Mode::Matches
        }
    }
}
