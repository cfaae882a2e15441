//! The program over the words of its process, the first of which is its own name.

ghost use Rattle.std.specs.Prelude.{◌≡◌, ◌≢◌, ◌⊎◌, ◌-◌, ◌^◌, ◌<◌, ◌≤◌, drop, map, string_bytes, IsErr, IfErr, IfOk, OnErr};
ghost use Rattle.std.specs.IoError.{error_kind};
ghost use Rattle.sinks.specs.Puts.{CanFail};
ghost use Rattle.arguments.specs.Asked.{asked};
ghost use Rattle.command.specs.Endings.{IsEnded, unread_ending};
ghost use Rattle.command.specs.Files.{real_files};
ghost use Rattle.command.specs.Whole.{Concludes, IsStatusOf, TellsWrites};

use crate::endings::Ending;
use crate::openers::Disk;
use crate::running::run_words;
use series::Sink;
use std::alloc::AllocError;
use std::io;
use std::io::ErrorKind;
use std::rt::Files;

/// Runs the program over the words that its process got, or that were not read: its own name is the first. Answers the
/// exit status.
///
/// Words that are no text are wrong usage. If memory was refused for them, the program says that.
pub fn run_process<R: Files + AllocGlobal, O: Sink, E: Sink>(
    rt: &R,
    words: io::Result<Vec<String>>,
    out: &mut O,
    err: &mut E,
) -> u8
    requires text { CanFail (O.written out.old) }
    requires faults { (E.written err.old).failures < 2 ^ 64 - 2 }
    ensures status { IfOk words (λ all. IsStatusOf (asked (drop 1 (map string_bytes all.items))) result) }
    ensures writes { TellsWrites result (O.written out.old) (E.written err.old) (O.written out.new)
        (E.written err.new) }
    ensures read { IfOk words (λ all. Concludes real_files (asked (drop 1 (map string_bytes all.items))) result
        (O.written out.old) (E.written err.old) (O.written out.new) (E.written err.new)) }
    ensures unread { IfErr words (λ fault. (O.written out.new ≡ O.written out.old)
        × IsEnded (unread_ending (error_kind fault)) result (E.written err.old)
        (E.written err.new)) }
{
    match words {
        Ok(words) => match borrowed(rt, words.as_slice()) {
            Ok(words) => {
                let words = after_first(words.as_slice());
                run_words(rt.alloc(), &Disk::new(rt), words, out, err)
            }
            Err(_) => Ending::OutOfMemory.conclude(err),
        },
        Err(fault) => unread(fault.kind()).conclude(err),
    }
}

/// Returns how the program ends if its words were not read.
fn unread(kind: ErrorKind) -> Ending<'static>
    ensures { result ≡ unread_ending kind }
{
    match kind {
        ErrorKind::OutOfMemory => Ending::OutOfMemory,
        _ => Ending::WrongUsage,
    }
}

/// Returns the words after the first.
fn after_first<'a>(words: &'a [&'a str]) -> &'a [&'a str]
    ensures { map (λ word. word.now) result.now ≡ drop 1 (map (λ word. word.now) words.now) }
{
    &words[words.len().min(1)..]
}

/// Returns the words as texts.
fn borrowed<'a, R: Alloc>(rt: &R, words: &'a [String]) -> Result<Vec<&'a str, R::A>, AllocError>
    ensures { IfOk result (λ texts. map (λ text. text.now) texts.items ≡ map string_bytes words.now) }
{
    let mut texts = Vec::new(rt.alloc());
    for word in words {
        texts.push(word.as_str())?;
    }
    Ok(texts)
}
