//! What is known of a robot, as rows of text.

use crate::chains::Link;
use crate::facts::{Facts, Part};
use crate::ways::Stretch;
use cycles::Span;
use grammar::Intrinsic;
use room::Room;
use tools::{Text, add_left, add_right, visible};

/// The width of the longest name of a function that is laid out in a column.
const NAMES: usize = 12;

/// Adds a line on the room that a robot needs, one for each of its functions and of its loops, and lines on what lies
/// between the questions of each loop's turn, if it asks so much. A control character of the file's name is shown as a
/// question mark.
pub fn add_rows(text: &mut impl Text, path: &str, facts: &Facts) {
    for character in path.chars() {
        text.push(visible(character));
    }
    text.add(": ");
    add_room(text, facts);
    for part in &facts.functions {
        add_line(text, part);
        add_call(text, part);
        text.add("\n");
    }
    for part in &facts.loops {
        add_line(text, part);
        add_turn(text, part);
        text.add("\n");
    }
    for part in &facts.loops {
        add_stretches(text, part);
    }
}

/// Adds lines on what lies between the questions of a loop's turn.
fn add_stretches(text: &mut impl Text, part: &Part) {
    if let Some(gap) = part.gap {
        add_line(text, part);
        add_gap(text, part, gap);
        text.add("\n");
    }
    if let Some(shot) = part.shot {
        add_line(text, part);
        add_shot(text, part, shot);
        text.add("\n");
    }
}

/// Adds the function of a loop and the most cycles from a question of its turn to the next one.
pub fn add_gap(text: &mut impl Text, part: &Part, gap: Stretch) {
    add_name(text, part);
    text.add("  a gap   ");
    match gap.cycles.most {
        Some(most) => {
            text.add("at most ");
            text.number(u64::from(most));
        }
        None => text.add("any number of"),
    }
    text.add(" cycles: ");
    text.add(asked_name(gap.from));
    text.add(" to ");
    text.add(asked_name(gap.to));
}

/// Adds the function of a loop and the cycles from a scan of its turn to a shot.
pub fn add_shot(text: &mut impl Text, part: &Part, shot: Stretch) {
    add_name(text, part);
    text.add("  a shot  ");
    add_span(text, shot.cycles);
    text.add(" cycles after the last scan");
}

/// Returns the name of the function that is asked.
fn asked_name(asked: Option<Intrinsic>) -> &'static str {
    match asked {
        Some(asked) => asked.name(),
        None => "",
    }
}

/// Adds the room that a robot needs, and what follows from it.
pub fn add_room(text: &mut impl Text, facts: &Facts) {
    match facts.bound.need {
        Some(need) => add_need(text, need, facts),
        None => add_circle(text, facts.chain.circle()),
    }
    text.add(if facts.bound.has_room {
        ": it never restarts for want of room\n"
    } else {
        ": it may restart for want of room\n"
    });
    if facts.bound.need.is_some() && !facts.bound.has_room {
        add_chain(text, facts.chain.links());
    }
}

/// Adds the functions that call one another where most is needed.
fn add_chain(text: &mut impl Text, links: &[Link]) {
    text.add("  most by ");
    add_links(text, links);
    text.add("\n");
}

/// Adds which function comes back to itself, and through which others.
fn add_circle(text: &mut impl Text, links: &[Link]) {
    text.add("no bound: ");
    if let Some(first) = links.first() {
        text.add(first.name.as_str());
        text.add(" calls itself");
        add_place(text, first);
        text.add(")");
    }
    if links.len() > 1 {
        text.add(" through ");
        add_links(text, links.get(1..).unwrap_or(&[]));
    }
}

/// Adds functions, each with its line and how many variables it has.
fn add_links(text: &mut impl Text, links: &[Link]) {
    let mut is_first = true;
    for link in links {
        text.add(if is_first { "" } else { ", " });
        text.add(link.name.as_str());
        add_place(text, link);
        match link.variables {
            0 => text.add(")"),
            1 => text.add(": 1 variable)"),
            more => {
                text.add(": ");
                text.number(u64::from(more));
                text.add(" variables)");
            }
        }
        is_first = false;
    }
}

/// Adds a bracket and the line of a function.
fn add_place(text: &mut impl Text, link: &Link) {
    text.add(" (line ");
    text.number(u64::from(link.line));
}

/// Adds the room that is needed, beside what the profile gives.
fn add_need(text: &mut impl Text, need: Room, facts: &Facts) {
    text.number(u64::from(need.words));
    text.add(" of ");
    text.number(u64::from(facts.profile.words()));
    text.add(" words, ");
    text.number(u64::from(need.frames));
    text.add(" of ");
    text.number(u64::from(facts.profile.frames()));
    text.add(" frames");
}

/// Adds the line on which a function or a loop begins.
fn add_line(text: &mut impl Text, part: &Part) {
    text.add("  line ");
    add_right(text, u64::from(part.line), 4);
    text.add("  ");
}

/// Adds what a call of a function takes.
pub fn add_call(text: &mut impl Text, part: &Part) {
    add_part(text, part, "call", "never returns");
}

/// Adds what a turn of a loop takes.
pub fn add_turn(text: &mut impl Text, part: &Part) {
    add_part(text, part, "turn", "never begins again");
}

/// Adds the name of a function, or of that in which a loop stands, and what a call or a turn takes.
fn add_part(text: &mut impl Text, part: &Part, what: &str, never: &str) {
    add_name(text, part);
    text.add("  a ");
    text.add(what);
    text.add("  ");
    match part.cycles {
        Some(cycles) => {
            add_span(text, cycles);
            text.add(" cycles");
            add_questions(text, part);
        }
        None => text.add(never),
    }
}

/// Adds the name of a function, or of that in which a loop stands, in a column.
fn add_name(text: &mut impl Text, part: &Part) {
    add_left(text, part.name.as_str(), NAMES);
}

/// Adds how much there is at least and at most.
pub fn add_span(text: &mut impl Text, span: Span) {
    match span.most {
        None if span.least == 0 => text.add("0 or more"),
        None => {
            text.add("at least ");
            text.number(u64::from(span.least));
        }
        Some(most) if most == span.least => text.number(u64::from(most)),
        Some(most) => {
            text.number(u64::from(span.least));
            text.add(" to ");
            text.number(u64::from(most));
        }
    }
}

/// Adds the questions of a part: each kind that it may ask and that the source names.
fn add_questions(text: &mut impl Text, part: &Part) {
    let mut is_first = true;
    let named = Intrinsic::ALL.iter().zip(&part.named);
    for ((intrinsic, is_named), questions) in named.zip(&part.questions) {
        if let Some(span) = questions
            && *is_named
            && span.most != Some(0)
        {
            text.add(if is_first { ": " } else { ", " });
            text.add(intrinsic.name());
            text.add(" ");
            add_span(text, *span);
            is_first = false;
        }
    }
}
