//! Runs: files are compiled, and listed or sent to matches.

ghost use Rattle.std.specs.Prelude.{◌≡◌, ◌-◌, ◌^◌, ◌<◌, List, length, map, IfOk, IfSome};
ghost use Rattle.battles.specs.Programs.{AreOfProfile};
ghost use Rattle.code.specs.Codes.{AreProgramsOf};
ghost use Rattle.grammar.specs.Tree.{File};
ghost use Rattle.series.specs.Compiling.{SourceFile};
ghost use Rattle.series.specs.Failures.{FailsAsAnswered, AreReady, failures};
ghost use Rattle.series.specs.FileRuns.{GoesOver};
ghost use Rattle.series.specs.Output.{Runs};
ghost use Rattle.series.specs.Pieces.{taken_by_sinks};
ghost use Rattle.series.specs.Playing.{playing};
ghost use Rattle.sinks.specs.Portions.{SinkState};
ghost use Rattle.sinks.specs.Puts.{CanFail, CountsSink};
ghost use Rattle.series.specs.SourceReading.{ReadsSources};
ghost use Rattle.series.specs.CompiledFiles.{Compiles, PutsPieces};
ghost use Rattle.series.specs.SourceContents.{AreSources, known_to_come};
ghost use Rattle.settings.specs.declared.settings.Mode.TheVariants.{Matches};

use crate::compiling::compile_all;
use crate::keeping::{Keeper, Lister};
use crate::run_results::{RunFault, SeriesFault, Status};
use crate::series::Series;
use battles::Programs;
use grammar::laws::resolved_files;
use settings::{Mode, Settings};
use sinks::Sink;
use tokens::Feed;

/// Runs what the settings ask for: each of their words has the feed of its file, in order.
///
/// `out` takes listings, or the reports of matches and their totals; `err` takes the diagnostics of faulty files. No
/// match is played if a file has a fault.
///
/// # Errors
///
/// `Read(file)` if reading that file fails, and `Write` if a sink fails.
pub fn run<F: Feed, O: Sink, E: Sink>(
    settings: &Settings,
    feeds: &mut [F],
    out: &mut O,
    err: &mut E,
) -> Result<Status, RunFault>
    requires ready { AreReady F.device (length settings.now.file_words) feeds.old
        (O.written out.old) (E.written err.old) }
    ensures output { (sources : List SourceFile) → AreSources sources settings.now.file_words (known_to_come F.device feeds.old)
        → Runs settings.now sources result (taken_by_sinks (O.written out.old) (E.written err.old))
        (taken_by_sinks (O.written out.new) (E.written err.new)) }
    ensures read { ReadsSources settings.now result (known_to_come F.device feeds.old) (known_to_come F.device feeds.new)
        (taken_by_sinks (O.written out.old) (E.written err.old)) (taken_by_sinks (O.written out.new) (E.written err.new)) }
    ensures failures { FailsAsAnswered result
        (failures F.device feeds.old (O.written out.old) (E.written err.old))
        (failures F.device feeds.new (O.written out.new) (E.written err.new)) }
{
    match settings.mode() {
        Mode::Listing => compile_all(&mut Lister, settings, feeds, out, err),
        Mode::Matches => play_files(settings, feeds, out, err),
    }
}

/// Compiles the files, and plays the matches of their programs if no file has a fault.
///
/// The programs of four files are large: they have a frame of their own, which a run that lists its files doesn't need.
#[inline(never)]
fn play_files<F: Feed, O: Sink, E: Sink>(
    settings: &Settings,
    feeds: &mut [F],
    out: &mut O,
    err: &mut E,
) -> Result<Status, RunFault>
    requires matches { settings.now.mode ≡ Matches }
    requires ready { AreReady F.device (length settings.now.file_words) feeds.old
        (O.written out.old) (E.written err.old) }
    ensures { GoesOver F.device settings.now feeds.old feeds.new (O.written out.old) (E.written err.old)
        (O.written out.new) (E.written err.new) result
        (λ sources before after. Runs settings.now sources result before after) }
{
    let mut keeper = Keeper::new(Mode::Matches);
    match compile_all(&mut keeper, settings, feeds, out, err) {
        Ok(Status::Done) => {
            // For the proof alone: a file that compiles is resolved.
            resolved_files();
            match play_all(&keeper.programs, settings, out) {
                Ok(()) => Ok(Status::Done),
                Err(SeriesFault::Write) => Err(RunFault::Write),
            }
        }
        Ok(Status::Faulty) => Ok(Status::Faulty),
        Err(fault) => Err(fault),
    }
}

/// Plays all matches, and writes each report before the next match begins, and then the totals.
fn play_all<O: Sink>(
    programs: &Programs,
    settings: &Settings,
    out: &mut O,
) -> Result<(), SeriesFault>
    requires manned { length programs.now ≡ length settings.now.file_words }
    requires profile { AreOfProfile settings.now.profile programs.now }
    requires countable { CanFail (O.written out.old) }
    ensures output { (files : List File) (faults : SinkState) → AreProgramsOf programs.now settings.now.profile files
        → PutsPieces result (taken_by_sinks (O.written out.old) faults) (taken_by_sinks (O.written out.new) faults)
        (playing settings.now files) }
    ensures count { CountsSink result (O.written out.old) (O.written out.new) }
{
    let mut series = Series::new(programs, settings);
    for _ in 0..settings.matches() {
        series.next(out)?;
    }
    series.finish(out)
}

/// Compiles each file and lists it, or puts its diagnostic. Returns the programs if no file has a fault.
pub fn compile_files<F: Feed, O: Sink, E: Sink>(
    settings: &Settings,
    feeds: &mut [F],
    out: &mut O,
    err: &mut E,
) -> Result<Option<Programs>, RunFault>
    requires ready { AreReady F.device (length settings.now.file_words) feeds.old
        (O.written out.old) (E.written err.old) }
    ensures over { GoesOver F.device settings.now feeds.old feeds.new (O.written out.old) (E.written err.old)
        (O.written out.new) (E.written err.new) result
        (λ sources before after. Compiles settings.now sources result before after) }
    ensures manned { IfOk result (λ programs. IfSome programs
        (λ programs. length programs ≡ length settings.now.file_words)) }
    ensures profile { IfOk result (λ programs. IfSome programs
        (λ programs. AreOfProfile settings.now.profile programs)) }
{
    let mut keeper = Keeper::new(settings.mode());
    match compile_all(&mut keeper, settings, feeds, out, err) {
        Ok(Status::Done) => Ok(Some(keeper.programs)),
        Ok(Status::Faulty) => Ok(None),
        Err(fault) => Err(fault),
    }
}
