//! What opens the files of a run.

ghost use Rattle.std.specs.Prelude.{◌≡◌, Err, IfOk, OnOk, false};
ghost use Rattle.command.specs.Files.{Files, ShowsFailure, real_files};

use std::fs::File;
use std::io::ErrorKind;
use std::rt::Files;
use tokens::{Feed, FileFeed};

/// Why a file was not opened.
#[derive(Clone, Copy, PartialEq, Eq)]
pub enum OpenFault {
    /// It can't be opened.
    Refused,
    /// Memory was refused.
    Memory,
}

/// What opens files by the words that name them.
pub trait Opener {
    type File: Feed + Drop;

    /// What is known of the files that words name: what each holds, and what opening or reading it shows.
    ghost files: { Self → Files };

    /// Opens the file of a word, of which nothing is read yet.
    fn open(&self, word: &str) -> Result<Self::File, OpenFault>
        ensures contents { IfOk result (λ file. (Self.File.device file).to_come ≡ (files self.now).holds word.now) }
        ensures opened { OnOk result ((files self.now).opens word.now) }
        ensures never_failed { IfOk result (λ file. (Self.File.device file).account.failures ≡ 0) }
        ensures not_ended { IfOk result (λ file. (Self.File.device file).ended ≡ false) }
        // If a read of this very file fails later, that shows it.
        ensures shows { IfOk result (λ file. ShowsFailure Self.File.device file ((files self.now).fails word.now)) }
        ensures refused { result ≡ Err OpenFault.Refused → (files self.now).refuses word.now };
}

/// The files of the machine that the program runs on, whose contents are not modelled.
#[derive(Drop)]
pub struct Disk<'r, R> {
    rt: &'r R,
}

impl<'r, R> Disk<'r, R> {
    /// Makes the disk whose files this runtime opens.
    pub fn new(rt: &'r R) -> Disk<'r, R>
        ensures { result.rt ≡ rt.entry }
    {
        Disk { rt }
    }
}

impl<R: Files> Opener for Disk<'_, R> {
    type File = FileFeed<R::File>;

    ghost files = { λ _. real_files };

    fn open(&self, word: &str) -> Result<FileFeed<R::File>, OpenFault> {
        match File::open(self.rt, word) {
            Ok(file) => Ok(FileFeed::new(file)),
            Err(fault) if fault.kind() == ErrorKind::OutOfMemory => Err(OpenFault::Memory),
            Err(_) => Err(OpenFault::Refused),
        }
    }
}
