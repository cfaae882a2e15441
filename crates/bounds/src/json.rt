//! What is known of a robot, as an object of JSON on a line.

use cycles::Span;
use facts::{Facts, Link, Part, Stretch};
use grammar::Intrinsic;
use tools::{Array, Draft, Object, Text, add_number_or_null};

/// Adds what is known of a robot as an object, and a line end.
pub fn add_object(text: &mut Draft, path: &str, facts: &Facts) {
    let mut object = Object::begin(text);
    object.words("file", path);
    let profile = if facts.profile.short_circuit() { 2 } else { 1 };
    object.number("profile", profile);
    add_room(&mut object, facts);
    add_links(object.field("most_by"), facts.chain.links());
    add_links(object.field("calls_itself"), facts.chain.circle());
    let (functions, loops) = (facts.functions.as_slice(), facts.loops.as_slice());
    add_parts(object.field("functions"), functions, false);
    add_parts(object.field("loops"), loops, true);
    object.end();
    text.add("\n");
}

/// Adds the room that a robot needs, and whether its profile gives it.
fn add_room(object: &mut Object<'_>, facts: &Facts) {
    let need = facts.bound.need;
    object.number_or_null("words", need.map(|room| u64::from(room.words)));
    object.number_or_null("frames", need.map(|room| u64::from(room.frames)));
    object.truth("has_room", facts.bound.has_room);
}

/// Adds an array of functions that call one another, or null.
fn add_links(text: &mut Draft, links: &[Link]) {
    if links.is_empty() {
        text.add("null");
        return;
    }
    let mut array = Array::begin(text);
    for link in links {
        let mut object = Object::begin(array.item());
        object.words("name", link.name.as_str());
        object.number("line", u64::from(link.line));
        object.number("variables", u64::from(link.variables));
        object.end();
    }
    array.end();
}

/// Adds an array of functions, or of loops.
fn add_parts(text: &mut Draft, parts: &[Part], are_loops: bool) {
    let mut array = Array::begin(text);
    for part in parts {
        let mut object = Object::begin(array.item());
        add_part(&mut object, part);
        if are_loops {
            add_stretches(&mut object, part);
        }
        object.end();
    }
    array.end();
}

/// Adds the fields that functions and loops have.
fn add_part(object: &mut Object<'_>, part: &Part) {
    object.words("name", part.name.as_str());
    object.number("line", u64::from(part.line));
    add_span(object.field("cycles"), part.cycles);
    for (intrinsic, questions) in Intrinsic::ALL.iter().zip(&part.questions) {
        add_span(object.field(intrinsic.name()), *questions);
    }
}

/// Adds what lies between the questions of a loop's turn.
fn add_stretches(object: &mut Object<'_>, part: &Part) {
    match part.gap {
        Some(gap) => add_gap(object.field("gap"), gap),
        None => object.field("gap").add("null"),
    }
    add_span(object.field("shot"), part.shot.map(|shot| shot.cycles));
}

/// Adds the most cycles from a question to the next one, and what is asked.
fn add_gap(text: &mut Draft, gap: Stretch) {
    let mut object = Object::begin(text);
    object.number_or_null("most", gap.cycles.most.map(|most| u64::from(most)));
    object.words("from", gap.from.map_or("", |asked| asked.name()));
    object.words("to", gap.to.map_or("", |asked| asked.name()));
    object.end();
}

/// Adds a span as an array of its least and its most, which is null if nothing bounds it; null for none.
fn add_span(text: &mut Draft, span: Option<Span>) {
    let Some(span) = span else {
        text.add("null");
        return;
    };
    let mut array = Array::begin(text);
    array.item().number(u64::from(span.least));
    add_number_or_null(array.item(), span.most.map(|most| u64::from(most)));
    array.end();
}
