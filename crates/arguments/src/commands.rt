//! The command as `clap` knows it.

ghost use Rattle.std.specs.Prelude.{◌≡◌, ◌≢◌, ◌⊎◌, ◌<◌, [], map, codes, length, true, false, IfOk, IfErr, OnOk, Err};
ghost use Rattle.clap.specs.Words.{app_of, fault_of, found_of, kind_of, matches_of, rows_of, rule_of, takes};
ghost use Rattle.arguments.specs.CommandLine.{files_rule, flag_rule, option_rule, crobots_app};
ghost use Rattle.arguments.specs.Asked.{files_in};

use clap::error::ErrorKind;
use clap::{Arg, ArgAction, ArgMatches, Command, Error};
use settings::UseFault;
use std::alloc::{AllocError, Global};

/// Reads the words after the program's name as uses of the command's options and files.
///
/// # Errors
///
/// `Usage` if `clap` refuses the words, and `Memory` if memory is refused.
pub(crate) fn clap_matches<'a>(
    alloc: Global,
    words: &'a [&'a str],
) -> Result<ArgMatches<'a>, UseFault>
    ensures rows { IfOk result (λ m. rows_of (found_of m) ≡ matches_of crobots_app (map (λ word. word.now) words.now)) }
    ensures files { IfOk result (λ m. 0 < length (files_in (rows_of (found_of m)))) }
    ensures ok { OnOk result (fault_of crobots_app (map (λ word. word.now) words.now) ≡ []) }
    ensures refused { IfErr result (λ fault. (fault ≡ UseFault.Memory)
        ⊎ ((fault ≡ UseFault.Usage) × (fault_of crobots_app (map (λ word. word.now) words.now) ≢ []))) }
    ensures taken { takes crobots_app (map (λ word. word.now) words.now) ≡ true → result ≢ Err UseFault.Usage }
{
    let Ok(mut command) = command(alloc) else {
        return Err(UseFault::Memory);
    };
    match command.try_get_matches_from_mut(words) {
        Ok(matches) => Ok(matches),
        Err(error) => Err(fault_by(&error)),
    }
}

/// Returns whether `clap` refused the words, or was refused memory.
fn fault_by(error: &Error) -> UseFault
    ensures memory { kind_of error.now ≡ ErrorKind.OutOfMemory → result ≡ UseFault.Memory }
    ensures usage { kind_of error.now ≢ ErrorKind.OutOfMemory → result ≡ UseFault.Usage }
    ensures either { (result ≡ UseFault.Memory)
        ⊎ ((result ≡ UseFault.Usage) × (kind_of error.now ≢ ErrorKind.OutOfMemory)) }
{
    match error.kind() {
        ErrorKind::OutOfMemory => UseFault::Memory,
        _ => UseFault::Usage,
    }
}

/// Makes the command: a flag, five options, and one or more files.
fn command<'a>(alloc: Global) -> Result<Command<'a>, AllocError>
    ensures { IfOk result (λ c. app_of c ≡ crobots_app) }
{
    Command::new(alloc, "crobots")
        .no_binary_name(true)
        .arg(flag(alloc, "c", 'c'))?
        .arg(option(alloc, "m", 'm'))?
        .arg(option(alloc, "l", 'l'))?
        .arg(option(alloc, "s", 's'))?
        .arg(option(alloc, "p", 'p'))?
        .arg(option(alloc, "f", 'f'))?
        .arg(files(alloc, "FILE"))
}

/// Makes a flag of one letter.
fn flag<'a>(alloc: Global, id: &'a str, letter: char) -> Arg<'a>
    ensures rule { rule_of result ≡ flag_rule id.entry.now letter }
    ensures local { result.global ≡ false }
{
    Arg::new(alloc, id).short(letter).action(ArgAction::SetTrue)
}

/// Makes an option of one letter, with one text.
fn option<'a>(alloc: Global, id: &'a str, letter: char) -> Arg<'a>
    ensures rule { rule_of result ≡ option_rule id.entry.now letter }
    ensures local { result.global ≡ false }
{
    Arg::new(alloc, id).short(letter).action(ArgAction::Set)
}

/// Makes the argument of one or more words, before, between or after the options.
fn files<'a>(alloc: Global, id: &'a str) -> Arg<'a>
    ensures rule { rule_of result ≡ files_rule id.entry.now }
    ensures local { result.global ≡ false }
{
    Arg::new(alloc, id).required(true).action(ArgAction::Append)
}
