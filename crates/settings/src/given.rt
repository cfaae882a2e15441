//! What the command line gave, and the settings that follow from it.

ghost use Rattle.std.specs.Prelude.{◌≡◌, ◌<◌, ◌≤◌, length, map, option_map, IfSome};
ghost use Rattle.settings.specs.Given.{AreWithin, mode_of, numbers_of, settings_given, number_or_default};

use crate::faults::UseFault;
use crate::numbers::value_number;
use crate::settings::{Mode, Numbers, Settings};
use crate::settings_limits::{
    CYCLES_DEFAULT, FIRST_DEFAULT, MATCHES_DEFAULT, MOST_CYCLES, MOST_FIRST_MATCH, MOST_MATCHES,
    PROFILE_DEFAULT, SEED_DEFAULT,
};
use arrayvec::ArrayVec;
use grammar::{MOST_PROFILE, Profile};
use std::marker::Model;

/// What the command line gave: a flag, the text of each option, and the file words.
#[derive(Drop)]
pub struct Given<'w, 'a> {
    /// Whether listings are asked for.
    pub listing: bool,
    /// The number of matches.
    pub matches: Option<&'a str>,
    /// The most cycles of a match.
    pub limit: Option<&'a str>,
    /// The seed of the random numbers.
    pub seed: Option<&'a str>,
    /// The number of the language profile.
    pub profile: Option<&'a str>,
    /// The number of the first match.
    pub first: Option<&'a str>,
    /// The file words: those that name files.
    pub file_words: &'w [&'a str],
}

impl<'w, 'a> Model for Given<'w, 'a> {
    ghost use Rattle.std.specs.Prelude.{map, option_map};
    ghost use Rattle.settings.specs.Given.{Given};

    ghost Value = { Given };

    ghost view = { λ g. record {
      listing = g.listing;
      matches = option_map (λ text. text.now) g.matches;
      limit = option_map (λ text. text.now) g.limit;
      seed = option_map (λ text. text.now) g.seed;
      profile = option_map (λ text. text.now) g.profile;
      first = option_map (λ text. text.now) g.first;
      file_words = map (λ word. word.now) g.file_words.now;
    } };
}

/// Returns the settings that the command line asks for.
///
/// # Errors
///
/// The first that applies of `Number` if a value is no number within its limits, `TooMany` for over four files, and
/// `NoMode` if neither listings nor matches are asked for.
pub fn settings_given<'a>(given: Given<'_, 'a>) -> Result<Settings<'a>, UseFault>
    requires { 0 < length given.file_words }
    ensures { result ≡ settings_given given.entry }
{
    let Some(numbers) = option_numbers(&given) else {
        return Err(UseFault::Number);
    };
    let Ok(words) = ArrayVec::try_from(given.file_words) else {
        return Err(UseFault::TooMany);
    };
    let Some(mode) = mode(&given) else {
        return Err(UseFault::NoMode);
    };
    Ok(Settings::new(mode, numbers, words))
}

/// Returns the numbers that are asked for, if each value is one within its limits.
#[tactic(auto, unfolding(crate::specs::Given::numbers_of))]
fn option_numbers(given: &Given<'_, '_>) -> Option<Numbers>
    ensures value { result ≡ numbers_of given.now }
    ensures within { IfSome result AreWithin }
{
    Some(Numbers {
        matches: option_count(given.matches, MOST_MATCHES, MATCHES_DEFAULT)?,
        limit: option_count(given.limit, MOST_CYCLES, CYCLES_DEFAULT)?,
        seed: option_value(given.seed, 0, u64::MAX, SEED_DEFAULT)?,
        profile: Profile::numbered(option_count(given.profile, MOST_PROFILE, PROFILE_DEFAULT)?),
        first: option_count(given.first, MOST_FIRST_MATCH, FIRST_DEFAULT)?,
    })
}

/// Returns the value of an option that is at least 1, and which has a default.
fn option_count(given: Option<&str>, most: u32, default: u32) -> Option<u32>
    requires least { 1 ≤ default }
    requires most { default ≤ most }
    ensures value { result ≡ number_or_default 1 most default (option_map (λ text. text.now) given.entry) }
    ensures within { IfSome result (λ n. (1 ≤ n) × (n ≤ most)) }
{
    let number = option_value(given, 1, u64::from(most), u64::from(default))?;
    Some(number as u32)
}

/// Returns the value of an option, which has a default.
fn option_value(given: Option<&str>, least: u64, most: u64, default: u64) -> Option<u64>
    ensures value { result ≡ number_or_default least most default (option_map (λ text. text.now) given.entry) }
    ensures within { least ≤ default → default ≤ most → IfSome result (λ n. (least ≤ n) × (n ≤ most)) }
{
    match given {
        Some(text) => value_number(text, least, most),
        None => Some(default),
    }
}

/// Returns the mode that is asked for, if any.
fn mode(given: &Given<'_, '_>) -> Option<Mode>
    ensures { result ≡ mode_of given.now }
{
    if given.listing {
        Some(Mode::Listing)
    } else {
        given.matches.map(|_| Mode::Matches)
    }
}
