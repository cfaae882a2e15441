//! Runs the program over given words, files and streams.

ghost use Rattle.std.specs.Prelude.{◌≡◌, ◌⊎◌, ℕ, ◌+◌, ◌-◌, ◌^◌, ◌<◌, ◌≤◌, List, [], ◌∷◌, map, length, false, IsErr, IfOk, IfErr, All};
ghost use Rattle.series.specs.Pieces.{taken_by_sinks};
ghost use Rattle.series.specs.Failures.{AreReady, accounts, failures};
ghost use Rattle.arguments.specs.Asked.{asked};
ghost use Rattle.command.specs.Endings.{FailsAsEnded};
ghost use Rattle.command.specs.Files.{EachShows, HasFailed};
ghost use Rattle.sinks.specs.Puts.{CanFail};
ghost use Rattle.command.specs.Whole.{Concludes, Ends, IsNotOpened, IsStatusOf, RunsTo, TellsWrites};
ghost use Rattle.series.specs.SourceContents.{known_to_come};

use crate::endings::Ending;
use crate::openers::{OpenFault, Opener};
use arguments::read_words;
use series::{RunFault, Sink, Status, run};
use settings::{Settings, UseFault};
use std::alloc::Global;
use tokens::Feed;

/// Runs the program over files that `disk` opens: `words` are those after its name, `out` takes its texts, and `err`
/// takes diagnostics and lines of its own. Answers the exit status.
pub fn run_words<'a, D: Opener, O: Sink, E: Sink>(
    alloc: Global,
    disk: &D,
    words: &'a [&'a str],
    out: &mut O,
    err: &mut E,
) -> u8
    requires text { CanFail (O.written out.old) }
    requires faults { (E.written err.old).failures < 2 ^ 64 - 2 }
    ensures status { IsStatusOf (asked (map (λ word. word.now) words.now)) result }
    ensures writes { TellsWrites result (O.written out.old) (E.written err.old) (O.written out.new)
        (E.written err.new) }
    ensures ended { Concludes (D.files disk.now) (asked (map (λ word. word.now) words.now)) result
        (O.written out.old) (E.written err.old) (O.written out.new) (E.written err.new) }
{
    run_to_ending(alloc, disk, words, out, err).conclude(err)
}

/// Runs the program up to its own line.
fn run_to_ending<'a, D: Opener, O: Sink, E: Sink>(
    alloc: Global,
    disk: &D,
    words: &'a [&'a str],
    out: &mut O,
    err: &mut E,
) -> Ending<'a>
    requires text { CanFail (O.written out.old) }
    requires faults { (E.written err.old).failures < 2 ^ 64 - 2 }
    ensures ends { Ends (D.files disk.now) (asked (map (λ word. word.now) words.now)) result
        (taken_by_sinks (O.written out.old) (E.written err.old)) (taken_by_sinks (O.written out.new) (E.written err.new)) }
    ensures failures { FailsAsEnded result (O.written out.old) (E.written err.old) (O.written out.new)
        (E.written err.new) }
{
    let settings = match read_words(alloc, words) {
        Ok(settings) => settings,
        Err(UseFault::Memory) => return Ending::OutOfMemory,
        Err(_) => return Ending::WrongUsage,
    };
    let mut feeds = match open_files(alloc, disk, settings.file_words()) {
        Ok(feeds) => feeds,
        Err(ending) => return ending,
    };
    run_files(&settings, feeds.as_mut_slice(), out, err)
}

/// Opens the files of these words, in order.
fn open_files<'a, D: Opener>(
    alloc: Global,
    disk: &D,
    words: &[&'a str],
) -> Result<Vec<D::File>, Ending<'a>>
    ensures contents { IfOk result (λ feeds. known_to_come D.File.device feeds.items
        ≡ map (λ word. (D.files disk.now).holds word.now) words.now) }
    ensures never_failed { IfOk result (λ feeds. All (λ feed. (D.File.device feed).account.failures ≡ 0) feeds.items) }
    ensures not_ended { IfOk result (λ feeds. All (λ feed. (D.File.device feed).ended ≡ false) feeds.items) }
    ensures shows { IfOk result (λ feeds. EachShows D.File.device (D.files disk.now).fails
        (map (λ word. word.now) words.now) feeds.items) }
    ensures refused { IfErr result (IsNotOpened (D.files disk.now) (map (λ word. word.now) words.now)) }
{
    let mut feeds = Vec::new(alloc);
    for word in words {
        let file = match disk.open(word) {
            Ok(file) => file,
            Err(OpenFault::Refused) => return Err(Ending::CannotOpen(word)),
            Err(OpenFault::Memory) => return Err(Ending::OutOfMemory),
        };
        if feeds.push(file).is_err() {
            return Err(Ending::OutOfMemory);
        }
    }
    Ok(feeds)
}

/// Runs what the settings ask for over these files.
fn run_files<'a, F: Feed, O: Sink, E: Sink>(
    settings: &Settings<'a>,
    feeds: &mut [F],
    out: &mut O,
    err: &mut E,
) -> Ending<'a>
    requires ready { AreReady F.device (length settings.now.file_words) feeds.old
        (O.written out.old) (E.written err.old) }
    ensures ran { RunsTo (HasFailed settings.now.file_words (accounts F.device feeds.old) (accounts F.device feeds.new))
        settings.now (known_to_come F.device feeds.old) result
        (taken_by_sinks (O.written out.old) (E.written err.old)) (taken_by_sinks (O.written out.new) (E.written err.new))
        (failures F.device feeds.old (O.written out.old) (E.written err.old))
        (failures F.device feeds.new (O.written out.new) (E.written err.new)) }
    ensures failures { FailsAsEnded result (O.written out.old) (E.written err.old) (O.written out.new)
        (E.written err.new) }
{
    match run(settings, feeds, out, err) {
        Ok(Status::Done) => Ending::Done,
        Ok(Status::Faulty) => Ending::Faulty,
        Err(RunFault::Read(file)) => Ending::CannotRead(settings.file_words()[file]),
        Err(RunFault::Write) => Ending::CannotWrite,
        Err(RunFault::Memory) => Ending::OutOfMemory,
    }
}
