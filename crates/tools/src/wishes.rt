//! Which match is asked for.

ghost use Rattle.std.specs.Prelude.{◌≡◌, ◌≤◌, IfOk};
ghost use Rattle.std.specs.Result.{result_ok};
ghost use Rattle.settings.specs.Given.{number_or_default};
ghost use Rattle.tools.specs.Given.{value_of};

use crate::faults::{Fault, Wrong};
use crate::known::Known;
use crate::options::Options;
use grammar::{MOST_PROFILE, Profile};
use settings::{
    Given, MOST_CYCLES, MOST_FILES, MOST_FIRST_MATCH, PROFILE_DEFAULT, Settings, UseFault,
    settings_given, value_number,
};

/// The option of the language profile.
pub const PROFILE_OPTIONS: [Known; 1] = [PROFILE];

/// The language profile.
const PROFILE: Known = Known::Valued("p", "PROFILE", "language profile, 1 or 2 (default 1)");

/// The options that a match is asked for by: its number, by two names, its most cycles, its seed, the profile.
pub const MATCH_OPTIONS: [Known; 5] = [
    Known::Valued("k", "MATCH", "number of the match (default 1)"),
    Known::Also("f", "k"),
    Known::Valued("l", "CYCLES", "most cycles of the match (default 500000)"),
    Known::Valued("s", "SEED", "seed of the random numbers (default 1)"),
    PROFILE,
];

/// The numbers that these options may give: the least and the most.
const LIMITS: [(&str, u64, u64); 4] = [
    ("k", 1, MOST_FIRST_MATCH as u64),
    ("l", 1, MOST_CYCLES as u64),
    ("s", 0, u64::MAX),
    ("p", 1, MOST_PROFILE as u64),
];

/// Reads the match that options ask for, as a series of one match: `-k`, its number, 1 to 1,000,000, by default 1;
/// `-l`, its most cycles, 1 to 1,000,000,000, by default 500,000; `-s`, its seed, by default 1; `-p`, the profile, 1 or
/// 2, by default 1; and one to four files. Other values, and another number of files, are wrong usage.
pub fn wish<'a>(options: &Options<'a>) -> Result<Settings<'a>, Fault> {
    let files = options.files();
    if files.is_empty() {
        return Err(Fault::Usage);
    }
    let given = Given {
        listing: false,
        matches: Some("1"),
        limit: options.value("l"),
        seed: options.value("s"),
        profile: options.value("p"),
        first: options.value("k"),
        file_words: files,
    };
    match settings_given(given) {
        Ok(wish) => Ok(wish),
        Err(UseFault::Number) => Err(wrong_number(options)),
        Err(UseFault::TooMany) => Err(Fault::Wrong(Wrong::Files(MOST_FILES))),
        Err(UseFault::Memory) => Err(Fault::Memory),
        Err(UseFault::Usage | UseFault::NoMode) => Err(Fault::Usage),
    }
}

/// Returns which option of a match has a value that is no number within its limits.
fn wrong_number(options: &Options<'_>) -> Fault {
    for (name, least, most) in LIMITS {
        if let Some(text) = options.value(name)
            && value_number(text, least, most).is_none()
        {
            return Fault::Wrong(Wrong::Number(name, least, most));
        }
    }
    Fault::Usage
}

/// Returns the word of the file that a robot of this number, from 0, comes from: a single file is both robots'.
pub fn file_of<'a>(wish: &Settings<'a>, robot: usize) -> &'a str {
    match wish.file_words() {
        [word] => word,
        words => words.get(robot).copied().unwrap_or(""),
    }
}

/// Reads the value of an option: a number from `least` to `most`, or the default one if it isn't given.
pub fn number_of(
    options: &Options<'_>,
    name: &'static str,
    least: u64,
    most: u64,
    default: u64,
) -> Result<u64, Fault>
    requires least { least ≤ default }
    requires most { default ≤ most }
    ensures value { result_ok result ≡ number_or_default least most default (value_of options.now name.now) }
    ensures within { IfOk result (λ n. (least ≤ n) × (n ≤ most)) }
{
    match options.value(name) {
        Some(text) => {
            let wrong = Fault::Wrong(Wrong::Number(name, least, most));
            value_number(text, least, most).ok_or(wrong)
        }
        None => Ok(default),
    }
}

/// Reads the language profile that options ask for by its number, by default the first.
pub fn profile(options: &Options<'_>) -> Result<Profile, Fault> {
    let (most, default) = (u64::from(MOST_PROFILE), u64::from(PROFILE_DEFAULT));
    let number = number_of(options, "p", 1, most, default)?;
    Ok(Profile::numbered(number as u32))
}
