//! The source that is told of: that of a file, or of standard input.

use std::io::{ErrorKind, Read};
use tokens::{MOST_SOURCE_BYTES, WINDOW_BYTES};
use tools::{Fault, Plain, name_of, source_of};

/// The largest source that is told of, in bytes. A robot's whole code comes from a small part of that, and what is told of a
/// source can take over two hundred times its bytes in memory.
const MOST_TOLD_BYTES: usize = 65_536;

/// The word for standard input.
const INPUT: &str = "-";

/// Reads the source of a word. If it can't be read, or is too large, a line about that is written.
pub fn source_given(rt: &HostRuntime, program: &str, word: &str) -> Result<Vec<u8>, Fault> {
    let source = if word == INPUT {
        source_read(rt, program)?
    } else {
        source_of(rt, program, word)?
    };
    if source.len() <= MOST_TOLD_BYTES {
        return Ok(source);
    }
    let name = if word == INPUT {
        "standard input"
    } else {
        name_of(word)
    };
    let _ = eprintln!(rt;
        "{}: over {MOST_TOLD_BYTES} bytes: nothing is told",
        Plain(name)
    );
    Err(Fault::Source)
}

/// Reads standard input: all of it, or as many bytes as determine what it compiles to. If it can't be read, a line with the
/// program's name is written.
fn source_read(rt: &HostRuntime, program: &str) -> Result<Vec<u8>, Fault> {
    let mut input = rt.stdin();
    let mut source = Vec::new(rt.alloc());
    let mut window = [0; WINDOW_BYTES];
    for _ in 0..=MOST_SOURCE_BYTES {
        let count = match input.read(&mut window) {
            Ok(count) => count,
            Err(error) => return Err(unread(rt, program, error.kind())),
        };
        source.extend_from_slice(window.get(..count).unwrap_or(&[]))?;
        if count == 0 || source.len() > MOST_SOURCE_BYTES as usize {
            break;
        }
    }
    Ok(source)
}

/// Returns why there is no source: memory was refused, or input can't be read, and then a line about that is written.
fn unread(rt: &HostRuntime, program: &str, kind: ErrorKind) -> Fault {
    if kind == ErrorKind::OutOfMemory {
        return Fault::Memory;
    }
    let _ = eprintln!(rt; "{program}: cannot read standard input");
    Fault::Read
}
