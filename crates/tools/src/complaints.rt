//! The lines that say what is wrong with the words of the command line.

use crate::faults::Wrong;
use crate::options::{Misread, Options};
use crate::shown::{Dashed, Plain};
use settings::MOST_FILES;
use std::fmt;

impl<'a> fmt::Display for Misread<'a> {
    fn fmt<W: fmt::Write>(&self, f: &mut fmt::Formatter<W>) -> fmt::Result {
        match *self {
            Misread::Unknown(word) => write!(f, "unknown option {}", Plain(word)),
            Misread::Series(word) => write!(f, "unknown option {} (the match is -k)", Plain(word)),
            Misread::Twice(one, other) if one == other => {
                write!(f, "{} is given twice", Dashed(one))
            }
            Misread::Twice(one, other) => {
                write!(
                    f,
                    "{} and {} are one option, given twice",
                    Dashed(one),
                    Dashed(other)
                )
            }
            Misread::Lacking(name) => write!(f, "{} lacks its value", Dashed(name)),
            Misread::Empty(name) => write!(f, "{} has an empty value", Dashed(name)),
            Misread::Valued(name) => write!(f, "{} takes no value", Dashed(name)),
            Misread::Memory => write!(f, "out of memory"),
        }
    }
}

/// Writes a line on what is wrong with the values of options, or with the files, on standard error, with the name of
/// the program.
pub fn tell_wrong(rt: &HostRuntime, program: &str, options: &Options<'_>, wrong: Wrong) {
    let _ = match wrong {
        Wrong::Number(name, least, most) => {
            let value = value_of(options, name);
            let option = Dashed(options.typed(name));
            eprintln!(rt; "{program}: {option} {value}: no number from {least} to {most}")
        }
        Wrong::Robot(robots) => {
            let value = value_of(options, "robot");
            let count = spelled(robots);
            eprintln!(rt; "{program}: --robot {value}: there are {count} robots")
        }
        Wrong::Order => {
            let last = value_of(options, "to");
            let first = value_of(options, "from");
            eprintln!(rt; "{program}: --to {last}: before --from {first}")
        }
        Wrong::Both(one, other) => {
            let (one, other) = (Dashed(one), Dashed(other));
            eprintln!(rt; "{program}: {one} and {other} exclude each other")
        }
        Wrong::Alone(one, other) => {
            let (one, other) = (Dashed(one), Dashed(other));
            eprintln!(rt; "{program}: {one} without {other}")
        }
        Wrong::Over(name) => {
            let value = value_of(options, name);
            let option = Dashed(name);
            eprintln!(rt; "{program}: {option} {value}: this file is read, so it is not written")
        }
        Wrong::Files(1) => eprintln!(rt; "{program}: over one file"),
        Wrong::Files(most) => {
            let most = spelled(most);
            eprintln!(rt; "{program}: over {most} files")
        }
        Wrong::Unlike(name, example) => {
            let option = Dashed(name);
            eprintln!(rt; "{program}: {option}: not as {example}")
        }
    };
}

/// Writes a line on standard error, with the name of the program, if a file is missing and an option may have taken it for its
/// value.
pub fn tell_taken(rt: &HostRuntime, program: &str, options: &Options<'_>) {
    if options.files().is_empty()
        && let Some((name, word)) = options.taken()
    {
        let (option, word) = (Dashed(name), Plain(word));
        let _ = eprintln!(rt; "{program}: no file: {option} took {word} for its value");
    }
}

/// Returns the value of an option as a line shows it.
fn value_of<'a>(options: &Options<'a>, name: &str) -> Plain<'a> {
    let value = options.value(name).unwrap_or("");
    Plain(value)
}

/// Writes on standard error that the output can't be written, with the name of the program, and the file if it is one.
pub fn tell_unwritten(rt: &HostRuntime, program: &str, file: Option<&str>) {
    let _ = match file {
        Some(file) => eprintln!(rt; "{program}: cannot write {}", Plain(file)),
        None => eprintln!(rt; "{program}: cannot write"),
    };
}

/// How many robots or files there are, as words: none, or up to as many robots as may fight.
const COUNTS: [&str; MOST_FILES + 1] = ["no", "one", "two", "three", "four"];

/// Returns how many robots or files there are as a word.
fn spelled(count: usize) -> &'static str {
    match COUNTS.get(count) {
        Some(word) => word,
        None => "many",
    }
}
