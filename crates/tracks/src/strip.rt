//! The strip of damage over time.

use crate::ink::{Period, colour, cycle_of};
use crate::scenes::{Robot, Scene};
use arena::MOST_ROBOTS;
use tools::{Draft, Text};
use watching::{
    STRIP_LEFT, STRIP_PERCENT, STRIP_TOP, STRIP_WIDTH, mark_spacing, strip_column, strip_row,
};

/// The most marks of the axis of time, beside the one at 0.
const MOST_MARKS: u32 = 5;

/// The height of the strip.
const HEIGHT: u32 = 100 * STRIP_PERCENT;

/// A million cycles.
const MILLION: u32 = 1_000_000;

/// How much higher the line of each robot lies than that of the one before.
const LIFT: usize = 2;

/// Adds the strip: its axes, the cycles that are drawn in the field, and the damage of each robot.
pub fn add_strip(text: &mut Draft, scene: &Scene<'_>) {
    let cycles = scene.recording.cycles;
    writeln!(text, r##"<g font-size="14" fill="#777777">"##);
    add_period(text, cycles, scene.period);
    add_percents(text);
    add_cycles(text, cycles);
    text.add("</g>\n");
    writeln!(text, r#"<g fill="none" stroke-width="3">"#);
    for robot in &scene.robots {
        add_damage(text, robot, cycles);
    }
    text.add("</g>\n");
}

/// Adds the grey ground of the cycles that are drawn in the field, and the strip's name.
fn add_period(text: &mut Draft, cycles: u32, period: Period) {
    let first = strip_column(cycle_of(period.first), cycles);
    let last = strip_column(cycle_of(period.last), cycles);
    let (width, row) = (last.saturating_sub(first), STRIP_TOP - 14);
    write!(text, r#"<rect x="{first}" y="{STRIP_TOP}""#);
    write!(text, r#" width="{width}" height="{HEIGHT}""#);
    writeln!(text, r##" fill="#f3f3f3"/>"##);
    write!(text, r#"<text x="{STRIP_LEFT}" y="{row}""#);
    text.add(r##" fill="#222222">"##);
    writeln!(text, "Damage in percent over cycles</text>");
}

/// Adds the lines of 0, 25, 50, 75 and 100 percent.
fn add_percents(text: &mut Draft) {
    for line in 0..=4u8 {
        let percent = 25 * line;
        let y = strip_row(percent);
        write!(text, r##"<path stroke="#dddddd" d="M{STRIP_LEFT} {y}"##);
        write!(text, r#"h{STRIP_WIDTH}"/><text x="{}""#, STRIP_LEFT - 8);
        writeln!(text, r#" y="{}" text-anchor="end">{percent}</text>"#, y + 5);
    }
}

/// Adds the marks of the axis of time.
fn add_cycles(text: &mut Draft, cycles: u32) {
    let spacing = mark_spacing(cycles, MOST_MARKS);
    for mark in 0..=cycles / spacing {
        let cycle = mark.saturating_mul(spacing);
        let (x, y) = (strip_column(cycle, cycles), STRIP_TOP + HEIGHT);
        write!(text, r##"<path stroke="#777777" d="M{x} {y}v6"/>"##);
        write!(text, r#"<text x="{x}" y="{}" font-size="12""#, y + 22);
        text.add(r#" text-anchor="middle">"#);
        // in millions, if the marks are whole millions apart
        if cycle > 0 && spacing % MILLION == 0 {
            writeln!(text, "{}M</text>", cycle / MILLION);
        } else {
            writeln!(text, "{cycle}</text>");
        }
    }
}

/// Adds the damage of a robot: a line that goes up a step whenever it grows. It lies a little above that of the robot
/// before, so that equal ones are all seen.
fn add_damage(text: &mut Draft, robot: &Robot<'_>, cycles: u32) {
    let (colour, lift) = (colour(robot.index), LIFT * (robot.index % MOST_ROBOTS));
    write!(text, r#"<path stroke="{colour}""#);
    write!(text, r#" transform="translate(0 -{lift})""#);
    write!(text, r#" d="M{STRIP_LEFT} {}"#, strip_row(0));
    for growth in robot.track.growths.as_slice() {
        let x = strip_column(cycle_of(growth.update), cycles);
        write!(text, "H{x}V{}", strip_row(growth.damage));
    }
    write!(text, "H{}\">", strip_column(cycles, cycles));
    robot.add_title(text);
    text.add("</path>\n");
}
