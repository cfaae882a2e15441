//! What a run and a source may be, what a run is if nothing is said, and the profiles, as rows.

use crate::rows::add_numbers;
use grammar::{MOST_NAMES, MOST_NESTED, MOST_PROFILE, Profile};
use settings::{
    CYCLES_DEFAULT, FIRST_DEFAULT, MATCHES_DEFAULT, MOST_CYCLES, MOST_FILES, MOST_FIRST_MATCH,
    MOST_MATCHES, PROFILE_DEFAULT, SEED_DEFAULT,
};
use tokens::{MOST_CONSTANT_VALUE, MOST_NAME_BYTES, MOST_SOURCE_BYTES};
use tools::{Draft, Text, begin_row};

/// The greatest numbers of a run and of a source.
const MOST: [(&str, u64); 11] = [
    ("files", MOST_FILES as u64),
    ("matches", MOST_MATCHES as u64),
    ("cycles", MOST_CYCLES as u64),
    ("first", MOST_FIRST_MATCH as u64),
    ("seed", u64::MAX),
    ("profile", MOST_PROFILE as u64),
    ("source_bytes", MOST_SOURCE_BYTES as u64),
    ("name_bytes", MOST_NAME_BYTES as u64),
    ("constant", MOST_CONSTANT_VALUE as u64),
    ("names", MOST_NAMES as u64),
    ("nested", MOST_NESTED as u64),
];

/// The numbers of a run of which nothing is said.
const DEFAULTS: [(&str, u64); 5] = [
    ("matches", MATCHES_DEFAULT as u64),
    ("cycles", CYCLES_DEFAULT as u64),
    ("first", FIRST_DEFAULT as u64),
    ("seed", SEED_DEFAULT),
    ("profile", PROFILE_DEFAULT as u64),
];

/// Adds the row of the greatest numbers.
pub fn add_most(text: &mut Draft) {
    add_numbers(text, "most", &MOST);
}

/// Adds the row of the numbers that a run has if nothing is said.
pub fn add_defaults(text: &mut Draft) {
    add_numbers(text, "default", &DEFAULTS);
}

/// Adds a row for each language profile.
pub fn add_profiles(text: &mut Draft) {
    for number in 1..=MOST_PROFILE {
        add_profile(text, number, Profile::numbered(number));
    }
}

/// Adds the row of a profile, which has this number.
fn add_profile(text: &mut Draft, number: u32, profile: Profile) {
    let mut row = begin_row(text, "profile");
    row.number("number", u64::from(number));
    row.number("instructions", u64::from(profile.instructions()));
    row.number("words", u64::from(profile.words()));
    row.number("frames", u64::from(profile.frames()));
    row.truth("short_circuit", profile.short_circuit());
    row.end();
    text.add("\n");
}
