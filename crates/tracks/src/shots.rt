//! The shots: their lines and their bursts.

use crate::ink::{Period, colour, cycle_of};
use tools::{Draft, Text};
use watching::{Shot, column, row};

/// Adds the shots: first all lines, then the dots of bursts that hurt nobody, and above them the rings of those that
/// hurt.
pub fn add_shots(text: &mut Draft, shots: &[Shot], period: Period) {
    writeln!(text, r#"<g fill="none" stroke-width="1.2">"#);
    for shot in shots {
        add_line(text, shot, period);
    }
    text.add("</g>\n");
    writeln!(text, r#"<g clip-path="url(#field)">"#);
    add_bursts(text, shots, period, false);
    add_bursts(text, shots, period, true);
    text.add("</g>\n");
}

/// Adds the bursts up to the end that hurt a robot, or those that did not.
fn add_bursts(text: &mut Draft, shots: &[Shot], period: Period, hit: bool) {
    for shot in shots {
        if shot.hit == hit && shot.burst <= period.last {
            add_burst(text, shot, period);
        }
    }
}

/// Adds a burst: its rings if it hurt a robot, else a dot.
fn add_burst(text: &mut Draft, shot: &Shot, period: Period) {
    let (x, y) = (column(shot.to), row(shot.to));
    if shot.hit {
        write!(text, r##"<use href="#burst" x="{x}" y="{y}""##);
    } else {
        let colour = colour(shot.robot);
        write!(text, r#"<circle cx="{x}" cy="{y}" r="2" fill="{colour}""#);
    }
    period.add_opacity(text, shot.burst);
    add_title(text, shot, ") cycle ", shot.burst);
    text.add(if shot.hit {
        ", hurt</title></use>\n"
    } else {
        ", hurt nobody</title></circle>\n"
    });
}

/// Adds the line of a shot: dashed if it did not burst before the end, and fainter if its burst hurt nobody.
fn add_line(text: &mut Draft, shot: &Shot, period: Period) {
    write!(text, r#"<path stroke="{}""#, colour(shot.robot));
    period.add_opacity(text, shot.fired);
    if shot.burst > period.last {
        text.add(r#" stroke-dasharray="4""#);
    } else if !shot.hit {
        text.add(r#" stroke-opacity=".4""#);
    }
    write!(text, r#" d="M{} {}"#, column(shot.from), row(shot.from));
    write!(text, r#"L{} {}""#, column(shot.to), row(shot.to));
    add_title(text, shot, ") after cycle ", shot.fired);
    text.add("</title></path>\n");
}

/// Adds the first part of a shot's title: who shot, and the cycle of an update.
fn add_title(text: &mut Draft, shot: &Shot, words: &str, update: u32) {
    let (number, cycle) = (shot.robot.saturating_add(1), cycle_of(update));
    write!(text, "><title>{number}{words}{cycle}");
}
