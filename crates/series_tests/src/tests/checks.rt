//! Runs over files and sinks in memory, for tests.

ghost use Rattle.std.specs.Prelude.{◌≡◌, ◌<◌, ◌≤◌, length, IfOk};
ghost use Rattle.battles.specs.Programs.{AreOfProfile};
ghost use Rattle.series.specs.Failures.{AreReady};
ghost use Rattle.settings.specs.Given.{AreWithin};
ghost use Rattle.sinks.specs.MemorySinks.{written_of};
ghost use Rattle.tokens.specs.MemoryFeeds.{device_of};

use arrayvec::ArrayVec;
use code::{Maker, Program};
use grammar::Profile;
use lang::parse;
use series::{
    CYCLES_DEFAULT, MOST_CYCLES, MOST_FILES, MOST_FIRST_MATCH, MOST_MATCHES, MemorySink, Mode,
    Numbers, Programs, RunFault, SEED_DEFAULT, Settings, Status, run,
};
use std::alloc::{AllocError, Global};
use std::process::Abort;
use std::test::Fail;
use tokens::MemoryFeed;

/// The lines of the listing of `main(){}`.
pub const EMPTY_MAIN: &[&str] = &[
    "File a.r",
    "Externals 0",
    "Function 0 main vars 0 at 0",
    "Code 3",
    "    0 CONST 0",
    "    1 RETSUB",
    "    2 NOP",
];

/// Makes a text of lines.
pub fn text_of(alloc: Global, lines: &[&str]) -> Result<Vec<u8>, AllocError> {
    let mut text = Vec::new(alloc);
    for line in lines {
        text.extend_from_slice(line.as_bytes())?;
        text.push(b'\n')?;
    }
    Ok(text)
}

/// Makes the text of a game of the file `a.r` alone: both robots end each of these matches alike, after the given
/// number of cycles.
/// `end` is how, and `count` is what the totals say of both.
pub fn twin_game(
    alloc: Global,
    numbers: &[u32],
    cycles: u32,
    end: &str,
    count: &str,
) -> Result<String, AllocError> {
    let mut text = String::new(alloc);
    for number in numbers {
        text.push_str(twin_report(alloc, *number, cycles, end)?.as_str())?;
    }
    let matches = numbers.len();
    write!(
        text,
        "Totals: {matches} matches\n  1) {count} a.r\n  2) {count} a.r\n"
    )?;
    Ok(text)
}

/// Makes the report of one such match.
pub fn twin_report(
    alloc: Global,
    number: u32,
    cycles: u32,
    end: &str,
) -> Result<String, AllocError> {
    format!(in alloc; "Match {number}: cycles = {cycles}\n  1) {end} a.r\n  2) {end} a.r\n")
}

/// Makes the settings of a run that lists these files.
pub fn listing<'a>(words: ArrayVec<&'a str, MOST_FILES>) -> Settings<'a>
    requires some { 0 < length words.items }
    ensures words { length result.file_words ≡ length words.entry.items }
    ensures mode { result.mode ≡ Mode.Listing }
{
    Settings::new(Mode::Listing, numbers_of(ONE_MATCH), words)
}

/// Makes the settings of a run that lists one file.
pub fn listing_of_one(word: &str) -> Settings<'_>
    ensures words { length result.file_words ≡ 1 }
    ensures mode { result.mode ≡ Mode.Listing }
{
    let mut words = ArrayVec::new();
    words.push(word);
    listing(words)
}

/// Makes the settings of a run that lists three files.
pub fn listing_of_three() -> Settings<'static>
    ensures words { length result.file_words ≡ 3 }
    ensures mode { result.mode ≡ Mode.Listing }
{
    let mut words = ArrayVec::new();
    words.push("a.r");
    words.push("k/b.r");
    words.push("c.r");
    listing(words)
}

/// How a run ended, and the bytes that the sinks took.
#[derive(Drop)]
pub struct Ended {
    /// The run's answer.
    pub answer: Result<Status, RunFault>,
    /// What the sink of texts took.
    pub text: Vec<u8>,
    /// What the sink of faults took.
    pub faults: Vec<u8>,
}

/// Runs what the settings ask for, over these devices and into these sinks.
pub fn run_into(
    settings: &Settings,
    feeds: &mut [MemoryFeed<'_>],
    out: &mut MemorySink,
    err: &mut MemorySink,
) -> Result<Ended, AllocError>
    requires { AreReady device_of (length settings.now.file_words) feeds.old (written_of out.old) (written_of err.old) }
{
    let answer = run(settings, feeds, out, err);
    Ok(Ended {
        answer,
        text: out.joined()?,
        faults: err.joined()?,
    })
}

/// Lists a file whose device gives at most the given number of bytes at a read.
pub fn list(alloc: Global, word: &str, source: &[u8], most: usize) -> Result<Ended, AllocError>
    requires { 0 < most }
{
    let (mut out, mut err) = (MemorySink::new(alloc), MemorySink::new(alloc));
    let mut feeds = [MemoryFeed::new(source, most)];
    run_into(&listing_of_one(word), &mut feeds, &mut out, &mut err)
}

/// Compiles a good source.
pub fn program_of(source: &[u8]) -> Result<Program, Fail> {
    let mut maker = Maker::new(Profile::first());
    match parse(&mut MemoryFeed::new(source, 4096), &mut maker) {
        Ok(names) => Ok(maker.finish(&names)),
        Err(_) => Err("the source has a fault".into()),
    }
}

/// Returns the program of a good file, for a series of these settings.
pub fn programs_of(source: &[u8], settings: &Settings) -> Result<Programs, Fail>
    ensures one { IfOk result (λ programs. length programs ≡ 1) }
    ensures profile { IfOk result (λ programs. AreOfProfile settings.now.profile programs) }
{
    let program = program_of(source)?;
    if program.profile() != settings.profile() {
        return Err("the settings are of another profile".into());
    }
    let mut programs = Programs::new();
    programs.add_translated(program);
    Ok(programs)
}

/// Lists a good file, whole and byte by byte, and compares the text.
pub fn check_listing(
    rt: &(impl Abort + AllocGlobal),
    word: &str,
    source: &[u8],
    lines: &[&str],
) -> Result<(), Fail> {
    for most in [4096, 1] {
        check_done(rt, &list(rt.alloc(), word, source, most)?, lines)?;
    }
    Ok(())
}

/// Lists a good file, whole and byte by byte, and compares the first lines and the last one.
pub fn check_long_listing(
    rt: &(impl Abort + AllocGlobal),
    source: &[u8],
    first: &[&str],
    last: &str,
) -> Result<(), Fail> {
    for most in [4096, 1] {
        let ended = list(rt.alloc(), "a.r", source, most)?;
        assert_eq!(rt; ended.answer, Ok(Status::Done), "{last}");
        assert!(rt;
            ended
                .text
                .starts_with(text_of(rt.alloc(), first)?.as_slice()),
            "{last}"
        );
        assert!(rt;
            ended
                .text
                .ends_with(text_of(rt.alloc(), &[last])?.as_slice()),
            "{last}"
        );
        assert!(rt; ended.faults.is_empty(), "{last}");
    }
    Ok(())
}

/// Lists a faulty file, whole and byte by byte, and compares the diagnostic.
pub fn check_fault(
    rt: &(impl Abort + AllocGlobal),
    word: &str,
    source: &[u8],
    diagnostic: &str,
) -> Result<(), Fail> {
    for most in [4096, 1] {
        let ended = list(rt.alloc(), word, source, most)?;
        check_faulty(rt, &ended, &[diagnostic])?;
    }
    Ok(())
}

/// What a run of matches is asked for.
#[derive(Clone, Copy)]
pub struct Game {
    /// How many matches it plays.
    pub matches: u32,
    /// The most cycles of each.
    pub limit: u32,
    /// Whether its files are of the second profile.
    pub short_circuit: bool,
    /// The number of the first match.
    pub first: u32,
}

/// One match of as many cycles as are played if none are asked for.
pub const ONE_MATCH: Game = Game {
    matches: 1,
    limit: CYCLES_DEFAULT,
    short_circuit: false,
    first: 1,
};

/// Asks for the given number of matches of 15 cycles.
pub fn short_matches(matches: u32) -> Game {
    Game {
        matches,
        limit: 15,
        ..ONE_MATCH
    }
}

/// Returns the numbers of a game, brought within their limits.
fn numbers_of(game: Game) -> Numbers
    ensures { AreWithin result }
{
    let profile = if game.short_circuit {
        Profile::second()
    } else {
        Profile::first()
    };
    Numbers {
        matches: game.matches.max(1).min(MOST_MATCHES),
        limit: game.limit.max(1).min(MOST_CYCLES),
        seed: SEED_DEFAULT,
        profile,
        first: game.first.max(1).min(MOST_FIRST_MATCH),
    }
}

/// Makes the settings of a game of these files, and brings its numbers within their limits.
pub fn game_of<'a>(game: Game, words: ArrayVec<&'a str, MOST_FILES>) -> Settings<'a>
    requires some { 0 < length words.items }
    ensures words { length result.file_words ≡ length words.entry.items }
{
    Settings::new(Mode::Matches, numbers_of(game), words)
}

/// Makes the settings of a game of one file.
pub fn game_of_one<'a>(game: Game, word: &'a str) -> Settings<'a>
    ensures words { length result.file_words ≡ 1 }
{
    let mut words = ArrayVec::new();
    words.push(word);
    game_of(game, words)
}

/// Makes the settings of a game of two files, one of them in a folder.
pub fn game_of_two(game: Game) -> Settings<'static>
    ensures words { length result.file_words ≡ 2 }
{
    let mut words = ArrayVec::new();
    words.push("a.r");
    words.push("k/b.r");
    game_of(game, words)
}

/// Runs what the settings ask for, over one file that is read whole.
pub fn play_one(alloc: Global, settings: &Settings, source: &[u8]) -> Result<Ended, AllocError>
    requires { length settings.now.file_words ≡ 1 }
{
    let (mut out, mut err) = (MemorySink::new(alloc), MemorySink::new(alloc));
    let mut feeds = [MemoryFeed::new(source, 4096)];
    run_into(settings, &mut feeds, &mut out, &mut err)
}

/// Runs what the settings ask for, over two files that are read whole.
pub fn play_two(
    alloc: Global,
    settings: &Settings,
    source: &[u8],
    other: &[u8],
) -> Result<Ended, AllocError>
    requires { length settings.now.file_words ≡ 2 }
{
    let (mut out, mut err) = (MemorySink::new(alloc), MemorySink::new(alloc));
    let mut feeds = [MemoryFeed::new(source, 4096), MemoryFeed::new(other, 4096)];
    run_into(settings, &mut feeds, &mut out, &mut err)
}

/// Compares how a run ended, and what each sink took.
pub fn check_ended(
    rt: &(impl Abort + AllocGlobal),
    ended: &Ended,
    answer: Result<Status, RunFault>,
    lines: &[&str],
    faults: &[&str],
) -> Result<(), Fail> {
    assert_eq!(rt; ended.answer, answer, "{lines:?} {faults:?}");
    let text = text_of(rt.alloc(), lines)?;
    assert_eq!(rt; ended.text.as_slice(), text.as_slice(), "{faults:?}");
    let diagnostics = text_of(rt.alloc(), faults)?;
    assert_eq!(rt;
        ended.faults.as_slice(),
        diagnostics.as_slice(),
        "{lines:?}"
    );
    Ok(())
}

/// Compares the whole text of a run, and that it is done.
pub fn check_done(
    rt: &(impl Abort + AllocGlobal),
    ended: &Ended,
    lines: &[&str],
) -> Result<(), Fail> {
    check_ended(rt, ended, Ok(Status::Done), lines, &[])
}

/// Compares the faults of a run, and that it wrote no text.
pub fn check_faulty(
    rt: &(impl Abort + AllocGlobal),
    ended: &Ended,
    diagnostics: &[&str],
) -> Result<(), Fail> {
    check_ended(rt, ended, Ok(Status::Faulty), &[], diagnostics)
}
