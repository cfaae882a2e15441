//! What a run is asked to do.

ghost use Rattle.std.specs.Prelude.{◌≡◌, map};
ghost use Rattle.settings.specs.Settings.{Settings};
ghost use Rattle.settings.specs.Accepted.{AreSettings, settings_of};

use crate::settings_limits::MOST_FILES;
use arrayvec::ArrayVec;
use grammar::Profile;
use std::marker::Model;

/// Whether files are listed or play matches.
#[derive(Clone, Copy, Debug, PartialEq, Eq)]
pub enum Mode {
    /// Lists the code of each file.
    Listing,
    /// Plays matches of the files.
    Matches,
}

/// The numbers of a run, and the language profile of all its files.
#[derive(Clone, Copy)]
pub struct Numbers {
    /// How many matches are played, 1 to 1,000,000.
    pub matches: u32,
    /// The most cycles of a match, 1 to 1,000,000,000.
    pub limit: u32,
    /// The seed of the random numbers.
    pub seed: u64,
    /// The language profile.
    pub profile: Profile,
    /// The number of the first match, 1 to 1,000,000.
    pub first: u32,
}

/// What a run is asked to do: its mode, its numbers, and its file words.
#[derive(Drop)]
pub struct Settings<'a> {
    mode: Mode,
    numbers: Numbers,
    file_words: ArrayVec<&'a str, MOST_FILES>,
}

impl<'a> Model for Settings<'a> {
    ghost Value = { Settings };

    ghost view = { λ s. settings_of s.numbers s.mode (map (λ word. word.now) s.file_words.items) };

    ghost invariant = { λ s. AreSettings (view s) };
}

impl<'a> Settings<'a> {
    /// Makes the settings of this mode, these numbers and these files.
    pub fn new(mode: Mode, numbers: Numbers, words: ArrayVec<&'a str, MOST_FILES>) -> Settings<'a>
        requires { AreSettings (settings_of numbers mode (map (λ word. word.now) words.items)) }
        ensures { result ≡ settings_of numbers mode (map (λ word. word.now) words.entry.items) }
    {
        Settings {
            mode,
            numbers,
            file_words: words,
        }
    }

    /// Returns whether files are listed or play matches.
    pub fn mode(&self) -> Mode
        ensures value { result ≡ self.now.mode }
        ensures within { AreSettings self.now }
    {
        self.mode
    }

    /// Returns how many matches are played, 1 to 1,000,000. No match is played if files are listed.
    pub fn matches(&self) -> u32
        ensures value { result ≡ self.now.matches }
        ensures within { AreSettings self.now }
    {
        self.numbers.matches
    }

    /// Returns the most cycles of a match, 1 to 1,000,000,000.
    pub fn limit(&self) -> u32
        ensures value { result ≡ self.now.limit }
        ensures within { AreSettings self.now }
    {
        self.numbers.limit
    }

    /// Returns the seed of the random numbers.
    pub fn seed(&self) -> u64
        ensures value { result ≡ self.now.seed }
        ensures within { AreSettings self.now }
    {
        self.numbers.seed
    }

    /// Returns the language profile of all files.
    pub fn profile(&self) -> Profile
        ensures value { result ≡ self.now.profile }
        ensures within { AreSettings self.now }
    {
        self.numbers.profile
    }

    /// Returns the number of the first match, 1 to 1,000,000.
    pub fn first(&self) -> u32
        ensures value { result ≡ self.now.first }
        ensures within { AreSettings self.now }
    {
        self.numbers.first
    }

    /// Returns the file words, one to four.
    pub fn file_words(&self) -> &[&'a str]
        ensures value { map (λ word. word.now) result.now ≡ self.now.file_words }
        ensures within { AreSettings self.now }
    {
        self.file_words.as_slice()
    }
}
