//! What the parts of the picture share: colours, opacity, titles and names.

use crate::matches::Recording;
use crate::requests::View;
use arena::MOST_ROBOTS;
use tools::{Draft, Text, visible};
use watching::{UPDATE_CYCLES, opacity};

/// The colours of the robots, in order: those of replays in the light theme, which differ for the colour-blind too.
const COLOURS: [&str; MOST_ROBOTS] = ["#0b6fb1", "#cd2d4d", "#00520e", "#7143d6"];

/// The greatest width of a name that is shown, in characters.
const MOST_WIDTH: usize = 24;

/// Returns the colour of a robot.
pub fn colour(robot: usize) -> &'static str {
    COLOURS[robot % MOST_ROBOTS]
}

/// The updates that are drawn.
#[derive(Clone, Copy)]
pub struct Period {
    /// The first update.
    pub first: u32,
    /// The last update.
    pub last: u32,
}

impl Period {
    /// Returns the updates of a match that are drawn.
    pub fn of(view: View, recording: &Recording) -> Period {
        let last = recording.updates().min(view.span.to / UPDATE_CYCLES);
        let first = view.span.from.div_ceil(UPDATE_CYCLES).min(last);
        Period { first, last }
    }

    /// Adds the opacity of what happened in an update as an attribute: the older, the fainter.
    pub fn add_opacity(self, text: &mut Draft, update: u32) {
        let (age, all) = (
            update.saturating_sub(self.first),
            self.last.saturating_sub(self.first),
        );
        let percent = opacity(age, all);
        write!(text, r#" opacity="{}.{:02}""#, percent / 100, percent % 100);
    }
}

/// Returns the cycle of an update.
pub fn cycle_of(update: u32) -> u32 {
    update.saturating_mul(UPDATE_CYCLES)
}

/// Adds a name, cut after its first characters if it is long.
pub fn add_short_name(text: &mut Draft, name: &str) {
    let fits = fitting(name, MOST_WIDTH);
    if fits == name.chars().count() {
        return add_name(text, name);
    }
    for c in name.chars().take(fitting(name, MOST_WIDTH - 1)) {
        add_character(text, c);
    }
    text.add("&#8230;");
}

/// Returns how many of the first characters of a name fit into a width.
fn fitting(name: &str, width: usize) -> usize {
    let mut left = width;
    let mut count: usize = 0;
    for c in name.chars() {
        let width = width_of(c);
        if left < width {
            return count;
        }
        left -= width;
        count = count.saturating_add(1);
    }
    count
}

/// Returns how wide a character is: the widest letters, and those beyond ASCII, are two.
fn width_of(c: char) -> usize {
    match c {
        'm' | 'w' | 'M' | 'W' | '@' | '%' => 2,
        _ if !c.is_ascii() => 2,
        _ => 1,
    }
}

/// Adds a name, with the characters that mean something in SVG replaced.
pub fn add_name(text: &mut Draft, name: &str) {
    for c in name.chars() {
        add_character(text, c);
    }
}

/// Adds a character of a name.
fn add_character(text: &mut Draft, c: char) {
    match c {
        '&' => text.add("&amp;"),
        '<' => text.add("&lt;"),
        '>' => text.add("&gt;"),
        _ => text.push(visible(c)),
    }
}
