//! What is known of the language, and of a robot before it fights, as rows.

use crate::robots::Robot;
use crate::rows::{Subject, add_position, add_range};
use cycles::{Counted, Runs, Span, all_runs, turns};
use derivations::locate;
use facts::add_room;
use grammar::Name;
use room::{Room, all_needs};
use std::alloc::{AllocError, Global};
use tools::{Draft, Fault, Object, Text, add_intrinsics, begin_row, kind_of};

/// The words of the language that have a use.
const WORDS: &str = "if else while return int long auto register";

/// Adds a row for each word of the language, with its kind, and one for each intrinsic function.
pub fn add_words(text: &mut Draft, alloc: Global) -> Result<(), AllocError> {
    for located in &locate(alloc, WORDS.as_bytes())? {
        if !located.token.is_last() {
            let mut row = begin_row(text, "word");
            row.words(
                "name",
                WORDS.get(located.start()..located.end()).unwrap_or("?"),
            );
            row.words("is", kind_of(&located.token));
            row.end();
            text.add("\n");
        }
    }
    add_intrinsics(text);
    Ok(())
}

/// Adds what is known of the robot of a source that compiles: a row on its room, one for what a call of each function and a
/// turn of each loop takes, one for the room that a call needs, and a warning if the robot may restart for want of room.
/// The only fault is that memory is refused.
pub fn add_known(text: &mut Draft, subject: &Subject<'_>) -> Result<(), Fault> {
    let Ok(robot) = Robot::of(subject) else {
        return Err(Fault::Memory);
    };
    add_room_rows(text, subject, &robot)?;
    add_cycles(text, subject, &robot)?;
    add_needs(text, subject, &robot);
    Ok(())
}

/// Adds a row on the room that a robot needs, and a warning if its profile doesn't give that.
fn add_room_rows(text: &mut Draft, subject: &Subject<'_>, robot: &Robot) -> Result<(), AllocError> {
    let mut room = Draft::new(subject.alloc);
    add_room(&mut room, robot.facts());
    let words = on_one_line(subject.alloc, room.finish()?.as_str())?;
    let bound = &robot.facts().bound;
    let mut row = begin_row(text, "room");
    add_room_fields(&mut row, bound.need);
    row.truth("has_room", bound.has_room);
    row.words("message", words.as_str());
    row.end();
    text.add("\n");
    if !bound.has_room {
        add_want_of_room(text, subject, robot, words.as_str());
    }
    Ok(())
}

/// Adds a row for what a call of each function takes, and then one for what a turn of each loop takes.
fn add_cycles(text: &mut Draft, subject: &Subject<'_>, robot: &Robot) -> Result<(), AllocError> {
    let alloc = subject.alloc;
    let cycles = Runs::of(robot.maker(), subject.profile, Counted::Cycles);
    for (index, run) in all_runs(alloc, robot.maker(), &cycles, &cycles)?
        .iter()
        .enumerate()
    {
        let place = robot.places().function(index);
        add_part(
            text,
            "call",
            &robot.name(run.function),
            place,
            Some(run.cycles),
        );
    }
    for (index, turn) in turns(alloc, robot.maker(), &cycles, &cycles)?
        .iter()
        .enumerate()
    {
        let place = robot.places().turn(index);
        add_part(text, "turn", &robot.name(turn.function), place, turn.cycles);
    }
    Ok(())
}

/// Adds a row for each function on the room that a call of it needs.
fn add_needs(text: &mut Draft, subject: &Subject<'_>, robot: &Robot) {
    let needs = all_needs(robot.maker().functions(), subject.profile).needs;
    for (index, function) in robot.maker().functions().iter().enumerate() {
        let (line, column) = robot.places().function(index);
        let mut row = begin_row(text, "need");
        row.words("name", robot.name(function.number).as_str());
        add_position(&mut row, line, column);
        add_room_fields(&mut row, needs[usize::from(function.number)]);
        row.end();
        text.add("\n");
    }
}

/// Adds words and frames, which are null if no room is enough.
fn add_room_fields(row: &mut Object<'_>, need: Option<Room>) {
    row.number_or_null("words", need.map(|room| u64::from(room.words)));
    row.number_or_null("frames", need.map(|room| u64::from(room.frames)));
}

/// Returns lines as one, with commas between them.
fn on_one_line(alloc: Global, lines: &str) -> Result<String, AllocError> {
    let mut line = Draft::new(alloc);
    for words in lines.trim().split('\n') {
        if !line.is_empty() {
            line.add(", ");
        }
        line.add(words.trim());
    }
    line.finish()
}

/// Adds the warning about a robot that may restart for want of room, at the name of its `main`.
fn add_want_of_room(text: &mut Draft, subject: &Subject<'_>, robot: &Robot, words: &str) {
    for (index, function) in robot.maker().functions().iter().enumerate() {
        if robot.name(function.number).has_bytes(b"main") {
            let (line, column) = robot.places().function(index);
            let mut row = begin_row(text, "warning");
            row.words("code", "room");
            add_position(&mut row, line, column);
            for located in subject.tokens {
                if located.line == line && located.column == column {
                    add_range(&mut row, located.start(), located.end());
                }
            }
            row.words("message", words);
            row.end();
            text.add("\n");
        }
    }
}

/// Adds the row on what a call or a turn takes, by its function and its place.
fn add_part(text: &mut Draft, what: &str, name: &Name, place: (u32, u32), cycles: Option<Span>) {
    let (line, column) = place;
    let mut row = begin_row(text, "cycles");
    row.words("of", what);
    row.words("name", name.as_str());
    add_position(&mut row, line, column);
    add_span(&mut row, cycles);
    row.end();
    text.add("\n");
}

/// Adds the least and the most of a span, which are null if there is none.
fn add_span(row: &mut Object<'_>, span: Option<Span>) {
    row.number_or_null("least", span.map(|span| u64::from(span.least)));
    match span {
        Some(span) => row.number_or_null("most", span.most.map(|most| u64::from(most))),
        None => row.number_or_null("most", None),
    }
}
