//! The robots' paths, with marks of time, and their ends.

ghost use Rattle.std.specs.Prelude.{◌<◌, ◌≤◌, length};

use crate::ink::{Period, colour, cycle_of};
use crate::matches::Track;
use crate::scenes::Robot;
use tools::{Draft, Text};
use watching::{Path, Place, UPDATE_CYCLES, column, mark_spacing, row};

/// The number of pieces of a path that differ in opacity.
const PIECES: usize = 16;

/// The most marks of time on a path: those of a match with the default limit.
const MOST_MARKS: u32 = 50;

/// The fewest cycles between two marks of time.
const LEAST_SPACING: u32 = 10_000;

/// The column beyond which a robot's number is on its left.
const LAST_COLUMN: u32 = 1000;

/// Returns the cycles between two marks of time on the paths.
pub fn path_spacing(period: Period) -> u32
    ensures { 1 ≤ result }
{
    let cycles = cycle_of(period.last.saturating_sub(period.first));
    mark_spacing(cycles, MOST_MARKS).max(LEAST_SPACING)
}

/// Adds a robot's path with a light edge, its marks of time and its start.
pub fn add_track(text: &mut Draft, robot: &Robot<'_>, period: Period) {
    let (track, colour) = (robot.track, colour(robot.index));
    write!(text, r#"<g fill="none" stroke="{colour}""#);
    text.add(r#" stroke-width="4">"#);
    robot.add_title(text);
    text.add("\n");
    add_edge(text, track);
    add_path(text, track, period);
    add_marks(text, track, period);
    if let [start, ..] = track.path.places() {
        add_circle(text, *start);
        writeln!(text, r##" r="9" fill="#ffffff" fill-opacity=".6"/>"##);
    }
    text.add("</g>\n");
}

/// Adds the first part of a circle at a place.
fn add_circle(text: &mut Draft, place: Place) {
    let (x, y) = (column(place), row(place));
    write!(text, r#"<circle cx="{x}" cy="{y}""#);
}

/// Adds the light edge of a path, which lies below it.
fn add_edge(text: &mut Draft, track: &Track) {
    text.add(r##"<polyline stroke="#ffffff" stroke-width="8" stroke-opacity=".8" points=""##);
    add_points(text, track.path.places(), &[track.end]);
    text.add("\"/>\n");
}

/// Adds a robot's path, in pieces.
fn add_path(text: &mut Draft, track: &Track, period: Period) {
    let len = track.path.places().len();
    let size = len / PIECES + 1;
    let mut first = 0;
    for _ in 0..PIECES {
        let next = len.min(first + size);
        if first < next {
            add_piece(text, track, first, next, period);
        }
        first = next;
    }
}

/// Adds the piece of a path from its place of number `first` up to that of number `next`, or to the robot's end.
fn add_piece(text: &mut Draft, track: &Track, first: usize, next: usize, period: Period)
    requires some { first < next }
    requires inside { next ≤ length track.now.path.places }
{
    let path: &Path = &track.path;
    let begin = track.first.saturating_add(path.update_of(first));
    let end = track.first.saturating_add(path.update_of(next - 1));
    text.add("<polyline");
    period.add_opacity(text, end);
    text.add(" points=\"");
    match path.places().get(first..next + 1) {
        Some(places) => add_points(text, places, &[]),
        None => add_points(text, &path.places()[first..next], &[track.end]),
    }
    let (begin, end) = (cycle_of(begin), cycle_of(end));
    writeln!(text, "\"><title>cycles {begin} to {end}</title></polyline>");
}

/// Adds the points of places and of the end behind them, but those that are where the one before is.
fn add_points(text: &mut Draft, places: &[Place], end: &[Place]) {
    let mut last = None;
    for place in places.iter().chain(end) {
        let (x, y) = (column(*place), row(*place));
        if last != Some((x, y)) {
            text.add(if last.is_some() { " " } else { "" });
            write!(text, "{x},{y}");
            last = Some((x, y));
        }
    }
}

/// Adds the marks of time on a path, but none at its start.
fn add_marks(text: &mut Draft, track: &Track, period: Period) {
    let spacing = path_spacing(period);
    let first = cycle_of(period.first) / spacing;
    for mark in first..=cycle_of(period.last) / spacing {
        let cycle = mark.saturating_mul(spacing);
        if let Some(place) = place_at(track, cycle) {
            add_circle(text, place);
            text.add(r##" r="4" fill="#ffffff" stroke-width="2">"##);
            writeln!(text, "<title>cycle {cycle}</title></circle>");
        }
    }
}

/// Returns where the robot was about this cycle, if the path has a place of it that isn't the first one.
fn place_at(track: &Track, cycle: u32) -> Option<Place> {
    let updates = (cycle / UPDATE_CYCLES).checked_sub(track.first)?;
    let number = updates / track.path.stride();
    if number == 0 {
        return None;
    }
    track.path.places().get(number as usize).copied()
}

/// Adds the signs of a robot's end: a full circle, a cross if it is dead, and its number beside them, on the side where
/// the field is.
pub fn add_end(text: &mut Draft, robot: &Robot<'_>, period: Period) {
    let (end, colour) = (robot.track.end, colour(robot.index));
    let (x, y) = (column(end), row(end));
    add_circle(text, end);
    write!(text, r#" r="9" fill="{colour}""#);
    writeln!(text, r##" stroke="#ffffff" stroke-width="2"/>"##);
    if robot.track.is_dead_after(period.last) {
        text.add(r##"<path stroke="#222222" stroke-width="5" d=""##);
        writeln!(text, r#"M{x} {y}m-14 -14l28 28m0 -28l-28 28"/>"#);
    }
    write!(text, r#"<text x="{x}" y="{y}""#);
    text.add(if x > LAST_COLUMN {
        r#" dx="-20" dy="7" text-anchor="end""#
    } else {
        r#" dx="20" dy="7" text-anchor="start""#
    });
    writeln!(text, r#" fill="{colour}">{}</text>"#, robot.number());
}
