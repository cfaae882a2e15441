//! Runs over robots in memory.

ghost use Rattle.std.specs.Prelude.{◌≡◌, ◌<◌, ◌≤◌, All, IfSome, IsSome, Some, false, length, map};
ghost use Rattle.page.specs.Orders.{setup_by};
ghost use Rattle.page.specs.Robots.{name_bytes, source_bytes};
ghost use Rattle.page.specs.Running.{AreNamed, IsAccepted, RunsRobots, ending_of};

use crate::endings::Ending;
use crate::orders::Order;
use crate::robots::RobotFile;
use crate::sheets::Sheet;
use crate::sources::SourceFeed;
use arrayvec::ArrayVec;
use series::{MOST_FILES, Mode, RunFault, Settings, Status, run};

/// Runs what the order asks for over one to four robots, and writes on two sheets, which are blank before: `text` takes
/// listings, or the reports of matches and their totals, and `faults` the diagnostics of faulty sources.
pub fn run_robots(
    order: &Order,
    robots: &[RobotFile],
    text: &mut Sheet,
    faults: &mut Sheet,
) -> Ending
    ensures { RunsRobots order.now robots.now result text.new faults.new }
{
    text.clear();
    faults.clear();
    let Some(settings) = settings_of(order, order.mode(), robots) else {
        return Ending::Refused;
    };
    let mut feeds = feeds_of(robots);
    let ran = run(&settings, feeds.as_mut_slice(), text, faults);
    ended(ran)
}

/// Returns how a call ends whose run ended so: of sources in memory only a full sheet stops one.
fn ended(ran: Result<Status, RunFault>) -> Ending
    ensures { result ≡ ending_of ran }
{
    match ran {
        Ok(Status::Done) => Ending::Done,
        Ok(Status::Faulty) => Ending::Faulty,
        Err(_) => Ending::Full,
    }
}

/// Returns the settings of a run of robots in a mode, by the numbers of an order. `None` if one of these is not within
/// its limits, a name is no text, or there is no robot or over four.
pub(crate) fn settings_of<'a>(
    order: &Order,
    mode: Mode,
    robots: &'a [RobotFile],
) -> Option<Settings<'a>>
    ensures value { IfSome result (λ settings. settings ≡ setup_by mode order.now (map name_bytes robots.now)) }
    ensures accepted { IsAccepted order.now robots.now → IsSome result }
    ensures refused { IsSome result → IsAccepted order.now robots.now }
{
    let words = words_of(robots)?;
    order.settings(mode, words.as_slice())
}

/// Returns the names of one to four robots, if they are texts.
fn words_of(robots: &[RobotFile]) -> Option<ArrayVec<&str, MOST_FILES>>
    ensures names { IfSome result (λ words. map (λ word. word.now) words.items ≡ map name_bytes robots.now) }
    ensures some { IfSome result (λ words. 1 ≤ length words.items) }
    ensures accepted { AreNamed robots.now → IsSome result }
    ensures refused { IsSome result → AreNamed robots.now }
{
    if robots.is_empty() {
        return None;
    }
    let mut words = ArrayVec::new();
    for robot in robots {
        words.try_push(robot.name()?).ok()?;
    }
    Some(words)
}

/// Returns the sources of at most four robots.
pub(crate) fn feeds_of(robots: &[RobotFile]) -> ArrayVec<SourceFeed<'_>, MOST_FILES>
    requires { length robots.now ≤ MOST_FILES }
    ensures bytes { map (λ feed. Some feed.rest.now) result.items ≡ map (λ robot. Some (source_bytes robot)) robots.now }
    ensures not_ended { All (λ feed. feed.ended ≡ false) result.items }
{
    let mut feeds = ArrayVec::new();
    for robot in robots {
        feeds.push(SourceFeed::new(robot.source()));
    }
    feeds
}
