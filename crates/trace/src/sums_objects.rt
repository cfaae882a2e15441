//! The sums of a match as an object of JSON on a line.

use crate::reports::{Subject, cycles_by_function, subjects_of};
use crate::requests::Task;
use crate::tallies::{Calls, RobotCounts};
use code::Intrinsic;
use std::alloc::AllocError;
use tools::{Array, Draft, Object, Text};

/// Adds the sums of the match of this number as an object, and a line end: of each robot in the span.
pub fn add_object(
    text: &mut Draft,
    task: Task<'_>,
    number: u32,
    cycles: u32,
    tallies: &[RobotCounts],
) -> Result<(), AllocError> {
    let subjects = subjects_of(text.alloc(), task, tallies)?;
    let mut object = Object::begin(text);
    object.number("match", u64::from(number));
    object.number("cycles", u64::from(cycles));
    let mut array = Array::begin(object.field("robots"));
    for (robot, subject) in subjects.iter().enumerate() {
        if task.request.span.has_robot(robot) {
            add_robot(array.item(), subject)?;
        }
    }
    array.end();
    object.end();
    text.add("\n");
    Ok(())
}

/// Adds the sums of a robot.
fn add_robot(text: &mut Draft, subject: &Subject<'_>) -> Result<(), AllocError> {
    let tally = subject.tally;
    let counts = cycles_by_function(text.alloc(), subject)?;
    let mut object = Object::begin(text);
    object.number("robot", subject.number as u64);
    object.words("name", subject.noted.note.name.as_str());
    object.number("damage", u64::from(tally.damage));
    object.number_or_null("dead_after", tally.death.map(|cycle| u64::from(cycle)));
    object.number("restarts", tally.restarts());
    add_damage(&mut object, tally);
    add_shots(&mut object, tally);
    add_time(object.field("time"), tally);
    add_calls(object.field("calls"), tally);
    add_functions(object.field("functions"), subject, counts.as_slice());
    object.end();
    Ok(())
}

/// Adds what was taken from a robot, and what its shots took from others, by robots, in percent.
fn add_damage(object: &mut Object<'_>, tally: &RobotCounts) {
    object.number("lost_by_walls", tally.walls);
    object.number("lost_by_collisions", tally.collisions);
    object.numbers("lost_by_shots_of", &tally.shots);
    object.numbers("took_from", &tally.taken);
}

/// Adds a robot's shots, and by ranges those that were aimed.
fn add_shots(object: &mut Object<'_>, tally: &RobotCounts) {
    let [fired, refused] = tally.fired().unwrap_or([0, 0]);
    object.number("fired", fired);
    object.number("refused", refused);
    object.number("burst", tally.bursts);
    object.number("hit", tally.hits);
    object.numbers("aimed_by_range", &tally.aimed);
    object.numbers("reached_by_range", &tally.reached);
}

/// Adds what a robot's cycles were for.
fn add_time(text: &mut Draft, tally: &RobotCounts) {
    let shares = &tally.shares;
    let mut object = Object::begin(text);
    object.number("cycles", tally.cycles());
    object.number("moving", shares.moving);
    object.number("scanning", shares.scanning);
    object.number("shooting", shares.shooting);
    object.end();
}

/// Adds a robot's calls of intrinsic functions, of those that it called.
fn add_calls(text: &mut Draft, tally: &RobotCounts) {
    let mut object = Object::begin(text);
    for (intrinsic, calls) in Intrinsic::ALL.iter().zip(&tally.calls) {
        if calls.all > 0 {
            add_call(object.field(intrinsic.name()), calls);
        }
    }
    object.end();
}

/// Adds the calls of a function: how many, how many had the reply 0, and the least and the greatest reply.
fn add_call(text: &mut Draft, calls: &Calls) {
    let mut object = Object::begin(text);
    object.number("count", calls.all);
    object.number("zero", calls.zero);
    if let Some(span) = calls.replies {
        let [least, most] = span;
        object.signed("least", i64::from(least));
        object.signed("most", i64::from(most));
    }
    object.end();
}

/// Adds the cycles of each function.
fn add_functions(text: &mut Draft, subject: &Subject<'_>, counts: &[u64]) {
    let mut array = Array::begin(text);
    for (number, cycles) in counts.iter().enumerate() {
        let mut object = Object::begin(array.item());
        object.words("name", subject.noted.named().function_name(number));
        object.number("cycles", *cycles);
        object.end();
    }
    array.end();
}
