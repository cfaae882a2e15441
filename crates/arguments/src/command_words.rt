//! What the words of the command line ask for.

ghost use Rattle.std.specs.Prelude.{◌≡◌, ◌≢◌, ◌⊎◌, ◌<◌, length, map, codes, true, Err};
ghost use Rattle.clap.specs.Words.{found_of, rows_of, takes};
ghost use Rattle.arguments.specs.CommandLine.{crobots_app};
ghost use Rattle.arguments.specs.Asked.{asked, files_in, given_by, is_set};

use crate::commands::clap_matches;
use clap::ArgMatches;
use settings::{Given, Settings, UseFault, settings_given};
use std::alloc::Global;

/// Reads the words after the program's name.
///
/// # Errors
///
/// `Usage` if the words aren't a use of the command, and else the first that applies of `Number`, `TooMany` and
/// `NoMode`.
/// `Memory` may come instead of any answer.
pub fn read_words<'a>(alloc: Global, words: &'a [&'a str]) -> Result<Settings<'a>, UseFault>
    ensures answer { (result ≡ Err UseFault.Memory) ⊎ (result ≡ asked (map (λ word. word.now) words.now)) }
    ensures taken { takes crobots_app (map (λ word. word.now) words.now) ≡ true → result ≢ Err UseFault.Usage }
{
    match clap_matches(alloc, words) {
        Ok(matches) => settings_given(given(&matches)),
        Err(fault) => Err(fault),
    }
}

/// Returns what the matches of `clap` give for each option, and the file words, of which there is at least one.
fn given<'w, 'a>(matches: &'w ArgMatches<'a>) -> Given<'w, 'a>
    requires { 0 < length (files_in (rows_of (found_of matches.now))) }
    ensures { result ≡ given_by (rows_of (found_of matches.now)) }
{
    let Some(files) = matches.get_strs("FILE") else {
        unreachable!()
    };
    Given {
        listing: is_listing(matches),
        matches: matches.get_str("m"),
        limit: matches.get_str("l"),
        seed: matches.get_str("s"),
        profile: matches.get_str("p"),
        first: matches.get_str("f"),
        file_words: files,
    }
}

/// Reports whether `-c` is given.
fn is_listing(matches: &ArgMatches<'_>) -> bool
    ensures { result ≡ is_set (codes "c") (rows_of (found_of matches.now)) }
{
    match matches.get_str("c") {
        Some(text) => text == "true",
        None => false,
    }
}
