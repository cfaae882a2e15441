//! Files by the words that name them: opened, and read whole.

use crate::faults::Fault;
use crate::shown::FileWord;
use std::alloc::Global;
use std::fs::File;
use std::io::{ErrorKind, Read};
use tokens::{MOST_SOURCE_BYTES, WINDOW_BYTES};

/// Opens the file of a word. If it can't be opened, a line with the program's name and the word is written.
fn opened(rt: &HostRuntime, program: &str, word: &str) -> Result<File, Fault> {
    match File::open(rt, word) {
        Ok(file) => Ok(file),
        Err(fault) if fault.kind() == ErrorKind::OutOfMemory => Err(Fault::Memory),
        Err(_) => {
            let _ = eprintln!(rt; "{program}: cannot open {}", FileWord(word));
            Err(Fault::Read)
        }
    }
}

/// Reads the file of a word: all of it, or as many bytes as determine what it compiles to. If it can't be opened or
/// read, a line with the program's name and the word is written.
pub fn source_of(rt: &HostRuntime, program: &str, word: &str) -> Result<Vec<u8>, Fault> {
    let mut file = opened(rt, program, word)?;
    let source = read_whole(rt.alloc(), &mut file);
    if let Err(Fault::Read) = &source {
        let _ = eprintln!(rt; "{program}: cannot read {}", FileWord(word));
    }
    source
}

/// Reads bytes until there are none, or more than a source may have.
fn read_whole<F: Read>(alloc: Global, file: &mut F) -> Result<Vec<u8>, Fault> {
    let mut source = Vec::new(alloc);
    let mut window = [0; WINDOW_BYTES];
    for _ in 0..=MOST_SOURCE_BYTES {
        let Ok(count) = file.read(&mut window) else {
            return Err(Fault::Read);
        };
        source.extend_from_slice(window.get(..count).unwrap_or(&[]))?;
        if count == 0 || source.len() > MOST_SOURCE_BYTES as usize {
            break;
        }
    }
    Ok(source)
}
