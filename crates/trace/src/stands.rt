//! Where robots are after a cycle.

ghost use Rattle.std.specs.Prelude.{◌≤◌, length};

use crate::requests::Task;
use arena::MOST_ROBOTS;
use notes::add_moment;
use tools::{Draft, Fault, write_text};
use watching::Pilot;

/// Writes where each chosen robot is after the cycle that is asked for: its number and its file's name, the rows on it,
/// and an empty line.
pub fn tell_moments(task: Task<'_>, pilots: &mut [Pilot<'_>]) -> Result<(), Fault>
    requires some { 2 ≤ length pilots.old }
    requires most { length pilots.old ≤ MOST_ROBOTS }
{
    let request = task.request;
    let mut text = Draft::new(task.rt.alloc());
    for robot in 0..pilots.len() {
        if request.span.has_robot(robot)
            && let Some(noted) = task.sources.robot(robot)
        {
            writeln!(text, "of\t{}\t{}", robot.saturating_add(1), noted.note.name);
            add_moment(&mut text, &request.wish, &noted, pilots, robot, request.at)?;
        }
    }
    write_text(task.rt, text.finish()?.as_str())
}
