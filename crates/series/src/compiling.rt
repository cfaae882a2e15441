//! Files are compiled: each good one's program is taken, and each faulty one's diagnostic put.

ghost use Rattle.std.specs.Prelude.{◌≡◌, ℕ, ◌+◌, ◌-◌, ◌^◌, ◌<◌, ◌≤◌, List, [], ◌∷◌, Some, length, map};
ghost use Rattle.series.specs.Compiling.{SourceFile};
ghost use Rattle.series.specs.Failures.{AreReady, CountsFileFailures};
ghost use Rattle.series.specs.FileRuns.{GoesOver};
ghost use Rattle.series.specs.Pieces.{taken_by_sinks};
ghost use Rattle.series.specs.SourceReading.{IfRead, ReadsFile};
ghost use Rattle.series.specs.ProgramKeeping.{CanKeep, IsNewKeeper, KeepsAll, KeepsOn, worse_status};
ghost use Rattle.series.specs.CompiledFiles.{CompilesAll, CompilesFile};

use crate::diagnostic_lines::put_diagnostic;
use crate::keeping::TakesPrograms;
use crate::run_results::{RunFault, Status};
use code::Maker;
use grammar::{Diagnostic, ParseFault, Profile, Scope};
use parser::parse_into;
use settings::Settings;
use sinks::{Sink, file_name};
use tokens::{DeviceFault, Feed};

/// Which device failed while a file was compiled.
#[derive(Clone, Copy, Debug, PartialEq, Eq)]
pub(crate) enum CompileFault {
    /// The file was not read.
    Read,
    /// A sink didn't take what the file gives.
    Write,
}

/// Compiles each file: gives the program of a good one to the keeper, and puts the diagnostic of a faulty one.
///
/// It isn't inlined: a caller that lists files would have room for their names in its frame while matches are played.
#[inline(never)]
pub fn compile_all<K: TakesPrograms, F: Feed, O: Sink, E: Sink>(
    keeper: &mut K,
    settings: &Settings,
    feeds: &mut [F],
    out: &mut O,
    err: &mut E,
) -> Result<Status, RunFault>
    requires new { IsNewKeeper settings.now.mode (K.mode keeper.old) (K.kept keeper.old) }
    requires ready { AreReady F.device (length settings.now.file_words) feeds.old
        (O.written out.old) (E.written err.old) }
    ensures over { GoesOver F.device settings.now feeds.old feeds.new (O.written out.old) (E.written err.old)
        (O.written out.new) (E.written err.new) result
        (λ sources before after. CompilesAll settings.now sources result (K.kept keeper.new) before after) }
    ensures keeps { KeepsAll settings.now.profile (length settings.now.file_words) result (K.kept keeper.new) }
{
    let words = settings.file_words();
    let profile = settings.profile();
    let mut status = Status::Done;
    // Names and code are large: those of one file have the room of those before.
    let mut names = Scope::new();
    let mut maker = Maker::new(profile);
    for file in 0..feeds.len() {
        let name = file_name(words[file].as_bytes());
        let compiled = match compile_file(
            keeper,
            profile,
            name,
            &mut names,
            &mut maker,
            &mut feeds[file],
            out,
            err,
        ) {
            Ok(compiled) => compiled,
            Err(CompileFault::Read) => return Err(RunFault::Read(file)),
            Err(CompileFault::Write) => return Err(RunFault::Write),
        };
        status = worse_status(status, compiled);
    }
    Ok(status)
}

/// Returns the status of two parts of a run: `Faulty` if one of them has it.
pub(crate) fn worse_status(first: Status, second: Status) -> Status
    ensures { result ≡ worse_status first second }
{
    match first {
        Status::Done => second,
        Status::Faulty => Status::Faulty,
    }
}

/// Compiles the file of a feed, and answers whether it is good. Gives a good file's program to the keeper, and puts the
/// diagnostic of a faulty one. The file's names take the place of those in the scope, and the maker begins anew: both
/// are large, so they stay where the caller made them.
#[inline(never)]
fn compile_file<K: TakesPrograms, F: Feed, O: Sink, E: Sink>(
    keeper: &mut K,
    profile: Profile,
    name: &[u8],
    names: &mut Scope,
    maker: &mut Maker,
    feed: &mut F,
    out: &mut O,
    err: &mut E,
) -> Result<Status, CompileFault>
    requires keeps { CanKeep profile (K.kept keeper.old) }
    requires ready { AreReady F.device 1 (feed.old ∷ []) (O.written out.old) (E.written err.old) }
    // If the file was not read nothing was put.
    ensures output { IfRead result ((bytes : List ℕ) → (F.device feed.old).to_come ≡ Some bytes
        → CompilesFile (K.mode keeper.old) profile name.now bytes result (K.kept keeper.old) (K.kept keeper.new)
        (taken_by_sinks (O.written out.old) (E.written err.old)) (taken_by_sinks (O.written out.new) (E.written err.new)))
        ((out.new ≡ out.old) × (err.new ≡ err.old)) }
    ensures keeps { KeepsOn profile result (K.mode keeper.old) (K.mode keeper.new)
        (K.kept keeper.old) (K.kept keeper.new) }
    ensures read { ReadsFile profile result (F.device feed.old).to_come (F.device feed.new).to_come }
    ensures failures { CountsFileFailures result (F.device feed.old).account (F.device feed.new).account
        (O.written out.old) (E.written err.old) (O.written out.new) (E.written err.new) }
{
    names.clear();
    maker.restart(profile);
    match parse_into(feed, maker, names) {
        Ok(()) => {
            match keeper.take_program(name, names, maker, out) {
                Ok(()) => Ok(Status::Done),
                Err(DeviceFault) => Err(CompileFault::Write),
            }
        }
        Err(ParseFault::Source(Diagnostic { line, code })) => {
            match put_diagnostic(err, name, line, code.text().as_bytes()) {
                Ok(()) => Ok(Status::Faulty),
                Err(DeviceFault) => Err(CompileFault::Write),
            }
        }
        Err(ParseFault::Device) => Err(CompileFault::Read),
        Err(ParseFault::Memory) => unreachable!(),
    }
}
