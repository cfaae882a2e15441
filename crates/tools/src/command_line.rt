//! The words of the command line.

ghost use Rattle.std.specs.Prelude.{◌≡◌, ◌≢◌};

use crate::faults::Fault;
use crate::shown::Coded;
use std::env::{Env, FillError, args};
use std::io::ErrorKind;

/// How many bytes a word may have to be named: as many as a path may.
const MOST_NAMED_BYTES: usize = 4096;

/// Returns the words of the command line after the program's name. Words that are no text are wrong usage, and a line
/// with the name of the program is written about the first of them.
pub fn words(rt: &HostRuntime, program: &str) -> Result<Vec<String>, Fault> {
    let mut words = match args(rt) {
        Ok(words) => words,
        Err(error) => {
            let fault = fault_by(error.kind());
            if fault == Fault::Usage {
                tell_no_text(rt, program);
            }
            return Err(fault);
        }
    };
    let _ = words.next();
    match words.collect(rt.alloc()) {
        Ok(words) => Ok(words),
        Err(_) => Err(Fault::Memory),
    }
}

/// Returns why there are no words: memory was refused, or they are no text.
fn fault_by(kind: ErrorKind) -> Fault
    ensures memory { kind ≡ ErrorKind.OutOfMemory → result ≡ Fault.Memory }
    ensures usage { kind ≢ ErrorKind.OutOfMemory → result ≡ Fault.Usage }
{
    match kind {
        ErrorKind::OutOfMemory => Fault::Memory,
        _ => Fault::Usage,
    }
}

/// Writes a line about the first word of the command line that is no text.
fn tell_no_text(rt: &HostRuntime, program: &str) {
    let mut buffer = [0; MOST_NAMED_BYTES];
    for index in 1..usize::MAX {
        match rt.arg(index, &mut buffer) {
            Ok(length) => {
                let word = buffer.get(..length).unwrap_or(&[]);
                if str::from_utf8(word).is_err() {
                    let _ = eprintln!(rt; "{program}: {} is no text", Coded(word));
                    return;
                }
            }
            Err(FillError::TooLong) => (),
            Err(FillError::NotPresent) => return,
        }
    }
}
