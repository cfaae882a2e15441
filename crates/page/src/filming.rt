//! What is reported of robots in memory: films of their match, moments of it, and where their instructions come from.

ghost use Rattle.std.specs.Prelude.{◌≡◌, ◌≢◌, ℕ, ◌<◌, ◌/◌, true, List, false, length};
ghost use Rattle.grammar.specs.Tree.{File};
ghost use Rattle.code.specs.Codes.{AreProgramsOf};
ghost use Rattle.battles.specs.Battle.{battle};
ghost use Rattle.battles.specs.Pairing.{robots_of};
ghost use Rattle.watching.specs.Played.{EndsAt, IsPlayed};
ghost use Rattle.page.specs.Asking.{film_asks, is_ahead};
ghost use Rattle.page.specs.Films.{FilmsRobots, MayEnd, Shows, stretch_in};
ghost use Rattle.page.specs.Sheets.{IsFull, refused};

use crate::compiled_robots::CompiledRobots;
use crate::endings::Ending;
use crate::films::Film;
use crate::insides::tell_inside;
use crate::orders::Order;
use crate::pilots::pilots_of;
use crate::robots::RobotFile;
use crate::running::{feeds_of, settings_of};
use crate::sheets::Sheet;
use crate::source_parts::tell_places;
use crate::stretches::Stretch;
use crate::subjects::Subject;
use grammar::laws::resolved_files;
use series::{Mode, Settings, Status, compile_all};
use watching::{PlayEnd, UPDATE_CYCLES, play};

/// Compiles one to four robots, and writes on a sheet what the subject reports of the first match that the order asks
/// for, or of the robots. The other sheet takes the diagnostics of faulty sources. Both are blank before.
pub fn tell_robots(
    order: &Order,
    robots: &[RobotFile],
    subject: &Subject<'_>,
    film: &mut Sheet,
    faults: &mut Sheet,
) -> Ending
    ensures { FilmsRobots order.now robots.now (stretch_in subject.now) result film.new faults.new }
{
    film.clear();
    faults.clear();
    let Some(settings) = settings_of(order, Mode::Matches, robots) else {
        return Ending::Refused;
    };
    let mut feeds = feeds_of(robots);
    let mut compiled = CompiledRobots::new();
    match compile_all(&mut compiled, &settings, feeds.as_mut_slice(), film, faults) {
        Ok(Status::Done) => {
            // For the proof alone: a file that compiles is resolved.
            resolved_files();
            let ending = tell_subject(&settings, &compiled, robots, subject, film);
            if film.is_full() {
                return Ending::Full;
            }
            ending
        }
        Ok(Status::Faulty) => Ending::Faulty,
        Err(_) => Ending::Full,
    }
}

/// Writes on a sheet what the subject reports of compiled robots. `Full` if it was cut off, since the sheet is full.
fn tell_subject(
    settings: &Settings<'_>,
    compiled: &CompiledRobots,
    robots: &[RobotFile],
    subject: &Subject<'_>,
    sheet: &mut Sheet,
) -> Ending
    requires { 0 < length compiled.now.programs.items }
    ensures may_end { MayEnd (stretch_in subject.now) result }
    ensures full { result ≡ Ending.Full → IsFull sheet.new }
    ensures shows { (files : List File) → AreProgramsOf compiled.now.programs.items settings.now.profile files
        → Shows (stretch_in subject.now) (battle (robots_of settings.now.profile files) settings.now.seed
        settings.now.first settings.now.limit).cycles result }
{
    match *subject {
        Subject::Film(stretch, skipped) => {
            return film_match(settings, compiled, robots, stretch, skipped, sheet);
        }
        Subject::Moment(target) => tell_inside(settings, compiled, target, false, sheet),
        Subject::Run(target) => tell_inside(settings, compiled, target, true, sheet),
        Subject::Places => tell_places(compiled, robots, sheet),
    }
    Ending::Done
}

/// Plays the first match of compiled robots, and writes its film on a sheet: of a stretch, or of all of it, without some
/// of its first rows. `Full` if it was cut off, since the sheet is full.
fn film_match(
    settings: &Settings<'_>,
    compiled: &CompiledRobots,
    robots: &[RobotFile],
    stretch: Option<Stretch>,
    skipped: u32,
    sheet: &mut Sheet,
) -> Ending
    requires { 0 < length compiled.now.programs.items }
    ensures may_end { MayEnd stretch result }
    ensures shows { (files : List File) → AreProgramsOf compiled.now.programs.items settings.now.profile files
        → Shows stretch (battle (robots_of settings.now.profile files) settings.now.seed settings.now.first
        settings.now.limit).cycles result }
    ensures full { result ≡ Ending.Full → IsFull sheet.new }
{
    let positions = compiled.positions(robots);
    let mut film = Film::new(sheet, compiled, positions.as_slice(), stretch, skipped);
    let end = play_robots(settings, compiled, &mut film);
    let ending = ending_of(stretch, end);
    if ending == Ending::Done {
        film.end(end.cycles);
    }
    // For the proof alone: what the sheet is when its loan ends.
    let _sheet = &*film.into_sheet();
    ending
}

/// Returns how a film of a stretch of a match ends that was played so far, or of all of it. `Full` if the match was
/// stopped before there was all of that.
fn ending_of(stretch: Option<Stretch>, end: PlayEnd) -> Ending
    ensures may_end { MayEnd stretch result }
    ensures shows { (last : ℕ) → EndsAt last end → Shows stretch last result }
    ensures cut { result ≡ Ending.Full → (end.is_over ≡ false)
        × (is_ahead stretch (end.cycles / UPDATE_CYCLES) ≡ true) }
{
    let Some(stretch) = stretch else {
        return if end.is_over {
            Ending::Done
        } else {
            Ending::Full
        };
    };
    if end.is_over && stretch.reaches(end.cycles) {
        Ending::Done
    } else if end.is_over || stretch.is_past(end.cycles / UPDATE_CYCLES) {
        Ending::GoesOn
    } else {
        Ending::Full
    }
}

/// Plays the first match of compiled robots before a film: one plays against itself. Returns where that ended.
#[tactic(auto, using(crate::proofs::FilmedRobots::two_paired))]
fn play_robots(settings: &Settings<'_>, compiled: &CompiledRobots, film: &mut Film<'_>) -> PlayEnd
    requires { 0 < length compiled.now.programs.items }
    ensures battle { (files : List File) → AreProgramsOf compiled.now.programs.items settings.now.profile files
        → IsPlayed (robots_of settings.now.profile files) settings.now.seed settings.now.first settings.now.limit result }
    ensures sheet { film.new.camera.rows.sheet.ghost_name ≡ film.old.camera.rows.sheet.ghost_name }
    ensures stretch { film.new.camera.rows.stretch ≡ film.old.camera.rows.stretch }
    ensures cut { result.is_over ≡ false → film_asks film.new.camera.rows.stretch (result.cycles / UPDATE_CYCLES)
        (refused film.new.camera.rows.sheet.now) ≡ false }
{
    let (seed, number, limit) = (settings.seed(), settings.first(), settings.limit());
    let mut pilots = pilots_of(compiled);
    play(&mut pilots[..compiled.robots()], film, seed, number, limit)
}
