//! The calls of the module.

ghost use Rattle.std.specs.Prelude.{◌≡◌, None, Some};
ghost use Rattle.page.specs.Endings.{EndsWith};
ghost use Rattle.page.specs.Explaining.{ExplainsRobots};
ghost use Rattle.page.specs.Films.{FilmsRobots, stretch_in};
ghost use Rattle.page.specs.Orders.{stretch_of};
ghost use Rattle.page.specs.Running.{RunsRobots};

use crate::explaining::{Topic, explain_robot};
use crate::filming::tell_robots;
use crate::orders::Order;
use crate::robots::RobotFile;
use crate::running::run_robots;
use crate::sheets::Sheet;
use crate::subjects::Subject;
use crate::targets::Target;

/// Runs what the order asks for over one to four robots, and writes on the two sheets, as the program crobots does: the
/// text that it writes on standard output, and the lines about faulty sources.
///
/// Answers as the program's exit status: 0 if each source is good, 1 if one has a fault, 2 if a number is not within
/// its limits, a name is no text, or there is no robot or over four, and 4 if a sheet is full.
#[tactic(auto, using(crate::proofs::RunningLemmas::ends))]
#[unsafe(no_mangle)]
pub extern "C" fn run(
    order: &Order,
    robots: &[RobotFile],
    text: &mut Sheet,
    faults: &mut Sheet,
) -> u32
    ensures { EndsWith (λ ending. RunsRobots order.now robots.now ending text.new faults.new) result }
{
    run_robots(order, robots, text, faults).code()
}

/// Plays the first match that the order asks for of one to four robots, and writes its film, or the diagnostics of
/// faulty sources. Answers as `run` does.
#[unsafe(no_mangle)]
pub extern "C" fn film(
    order: &Order,
    robots: &[RobotFile],
    text: &mut Sheet,
    faults: &mut Sheet,
) -> u32
    ensures { EndsWith (λ ending. FilmsRobots order.now robots.now None ending text.new faults.new) result }
{
    let film = Subject::Film(None, order.skipped);
    tell(order, robots, &film, text, faults)
}

/// Plays the first match that the order asks for of one to four robots up to a number of updates, and films a number of
/// windows of 15 cycles after them: the order's `from` and `windows` may be any numbers.
///
/// The film has the rows that that of the whole match has of these windows. Where they begin and end it has a row
/// `stands` for each robot, and where they begin a row `flies` for each missile in the air. If the match ends within
/// them or before, it has the rows with which the whole film ends, and the answer is 0. If the match goes on, the
/// answer is 6. Else it is that of `film`.
#[unsafe(no_mangle)]
pub extern "C" fn film_windows(
    order: &Order,
    robots: &[RobotFile],
    text: &mut Sheet,
    faults: &mut Sheet,
) -> u32
    ensures { EndsWith (λ ending. FilmsRobots order.now robots.now (Some (stretch_of order.now)) ending text.new faults.new) result }
{
    let film = Subject::Film(Some(order.stretch()), order.skipped);
    tell(order, robots, &film, text, faults)
}

/// Plays the first match that the order asks for of one to four robots up to a cycle, and writes where a robot is then,
/// or the diagnostics of faulty sources. Answers as `run` does.
#[unsafe(no_mangle)]
pub extern "C" fn moment(
    order: &Order,
    robots: &[RobotFile],
    target: &Target,
    text: &mut Sheet,
    faults: &mut Sheet,
) -> u32
    ensures { EndsWith (λ ending. FilmsRobots order.now robots.now None ending text.new faults.new) result }
{
    tell(order, robots, &Subject::Moment(target), text, faults)
}

/// Plays the first match that the order asks for of one to four robots, and writes the first cycle after a cycle, or
/// the last one before it, after which a robot is at one of some instructions; or the diagnostics of faulty sources.
/// Answers as `run` does.
#[unsafe(no_mangle)]
pub extern "C" fn find(
    order: &Order,
    robots: &[RobotFile],
    target: &Target,
    text: &mut Sheet,
    faults: &mut Sheet,
) -> u32
    ensures { EndsWith (λ ending. FilmsRobots order.now robots.now None ending text.new faults.new) result }
{
    tell(order, robots, &Subject::Run(target), text, faults)
}

/// Writes where the instructions of one to four robots come from, a row each, or the diagnostics of faulty sources.
/// Answers as `run` does.
#[unsafe(no_mangle)]
pub extern "C" fn places(
    order: &Order,
    robots: &[RobotFile],
    text: &mut Sheet,
    faults: &mut Sheet,
) -> u32
    ensures { EndsWith (λ ending. FilmsRobots order.now robots.now None ending text.new faults.new) result }
{
    tell(order, robots, &Subject::Places, text, faults)
}

/// Tells what a subject reports of one to four robots, or the diagnostics of faulty sources. Answers as `run` does.
#[tactic(auto, using(crate::proofs::RunningLemmas::ends))]
fn tell(
    order: &Order,
    robots: &[RobotFile],
    subject: &Subject<'_>,
    text: &mut Sheet,
    faults: &mut Sheet,
) -> u32
    ensures { EndsWith (λ ending. FilmsRobots order.now robots.now (stretch_in subject.now) ending text.new faults.new) result }
{
    tell_robots(order, robots, subject, text, faults).code()
}

/// Explains the source of the first robot in the language profile that the order asks for, as the program crobots-why
/// --lint does, but without a name in front: a line for each warning, up to the first fault, and the fault.
///
/// Answers 0 if it compiles, 1 if it has a fault, 2 as `run` does, and 4 if there is no room: the source has over
/// 16,384 tokens, or the sheet is full.
#[tactic(auto, using(crate::proofs::RunningLemmas::ends))]
#[unsafe(no_mangle)]
pub extern "C" fn explain(order: &Order, robots: &[RobotFile], text: &mut Sheet) -> u32
    ensures { EndsWith (λ ending. ExplainsRobots order.now robots.now ending text.new) result }
{
    explain_robot(order, robots, Topic::Warnings, text).code()
}

/// Tells what the turns of the loops of the first robot take, in the language profile that the order asks for: a row for
/// each loop, in the order of the source, or the first fault. No clause says which rows: as tested, they are those of
/// `crobots-bounds`. Answers as `explain` does.
#[tactic(auto, using(crate::proofs::RunningLemmas::ends))]
#[unsafe(no_mangle)]
pub extern "C" fn turns(order: &Order, robots: &[RobotFile], text: &mut Sheet) -> u32
    ensures { EndsWith (λ ending. ExplainsRobots order.now robots.now ending text.new) result }
{
    explain_robot(order, robots, Topic::Turns, text).code()
}

/// Returns how many bytes an order has.
#[unsafe(no_mangle)]
pub extern "C" fn order_bytes() -> usize
    ensures { result ≡ 40 }
{
    size_of::<Order>()
}

/// Returns how many bytes a robot has.
#[unsafe(no_mangle)]
pub extern "C" fn robot_bytes() -> usize
    ensures { result ≡ 1048840 }
{
    size_of::<RobotFile>()
}

/// Returns how many bytes a sheet has.
#[unsafe(no_mangle)]
pub extern "C" fn sheet_bytes() -> usize
    ensures { result ≡ 8388624 }
{
    size_of::<Sheet>()
}

/// Returns how many bytes a target has.
#[unsafe(no_mangle)]
pub extern "C" fn target_bytes() -> usize
    ensures { result ≡ 4016 }
{
    size_of::<Target>()
}
