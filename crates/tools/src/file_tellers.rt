//! What a program tells of files, one after the other.

use crate::faults::Fault;
use crate::outputs::Output;

/// What tells of files.
pub trait TellsOfFile {
    /// Tells of the file of a word. Reports whether it is faulty.
    fn tell(&self, rt: &HostRuntime, output: &mut Output, word: &str) -> Result<bool, Fault>;
}

/// Tells of the files of these words one after the other. If one is faulty, the fault is `Source`; no file is wrong
/// usage. What is told of the files before one that can't be read is written.
pub fn tell_files<T: TellsOfFile>(
    rt: &HostRuntime,
    teller: &T,
    words: &[&str],
) -> Result<(), Fault> {
    if words.is_empty() {
        return Err(Fault::Usage);
    }
    let mut output = Output::new(rt.alloc());
    let told = tell_each(rt, teller, &mut output, words);
    output.finish(rt)?;
    match told {
        Ok(false) => Ok(()),
        Ok(true) => Err(Fault::Source),
        Err(fault) => Err(fault),
    }
}

/// Tells of files. Reports whether one of them is faulty.
fn tell_each<T: TellsOfFile>(
    rt: &HostRuntime,
    teller: &T,
    output: &mut Output,
    words: &[&str],
) -> Result<bool, Fault> {
    let mut is_faulty = false;
    for word in words {
        is_faulty |= teller.tell(rt, output, word)?;
        output.pass(rt)?;
    }
    Ok(is_faulty)
}
