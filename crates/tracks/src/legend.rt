//! The legend: the match, what of it is drawn, how each robot ended, and what the signs mean.

use crate::ink::{add_name, add_short_name, colour, cycle_of};
use crate::matches::Track;
use crate::paths::path_spacing;
use crate::requests::View;
use crate::scenes::{Robot, Scene};
use arena::MOST_ROBOTS;
use tools::{Draft, Text};
use watching::Shots;

/// What explains the signs of the picture.
const SIGNS: &str =
    "<g fill=\"none\" stroke=\"#444444\" stroke-width=\"2\"><circle cx=\"1092\" cy=\"840\" r=\"8\"/><circle cx=\"1092\" cy=\"870\" r=\"8\" fill=\"#444444\"/>\
<path d=\"M1082 890l20 20m0 -20l-20 20\" stroke-width=\"4\"/><circle cx=\"1092\" cy=\"930\" r=\"4\"/></g>
<g stroke=\"#444444\"><path d=\"M1276 840h24\"/><path d=\"M1276 870h24\" stroke-opacity=\".4\"/><path d=\"M1276 900h24\" stroke-dasharray=\"4\"/></g>\
<circle cx=\"1300\" cy=\"870\" r=\"2\" fill=\"#444444\"/><use href=\"#burst\" x=\"1110\" y=\"1010\"/>
<g fill=\"#222222\"><text x=\"1116\" y=\"846\">start</text><text x=\"1116\" y=\"876\">end</text><text x=\"1116\" y=\"906\">death</text>\
<text x=\"1312\" y=\"846\">shot</text><text x=\"1312\" y=\"876\">it hurt nobody</text><text x=\"1312\" y=\"906\">still in the air</text>\
<text x=\"1160\" y=\"1000\">burst that hurt: 10, 5 and 3 percent</text><text x=\"1160\" y=\"1024\">up to 5, 20 and 40 metres</text></g>
";

/// Adds the legend.
pub fn add_legend(text: &mut Draft, scene: &Scene<'_>) {
    let (number, cycles) = (scene.request.wish.first(), scene.recording.cycles);
    writeln!(text, r##"<g fill="#222222">"##);
    text.add(r#"<text x="1080" y="70" font-size="22">"#);
    writeln!(text, "Match {number}: cycles = {cycles}</text>");
    add_view(text, scene.request.view, cycles);
    add_share(text, &scene.recording.shots);
    for robot in &scene.robots {
        add_entry(text, robot);
    }
    let spacing = path_spacing(scene.period);
    text.add(r#"<text x="1116" y="936">"#);
    writeln!(text, "each {spacing} cycles</text>\n</g>");
    text.add(SIGNS);
}

/// Adds which cycles and which robot are drawn, if not all.
fn add_view(text: &mut Draft, view: View, cycles: u32) {
    if view.is_whole(cycles) {
        return;
    }
    let (from, to) = (view.span.from.min(cycles), view.span.to.min(cycles));
    text.add(r#"<text x="1080" y="94" font-size="14">"#);
    write!(text, "drawn: cycles {from} to {to}");
    if let Some(robot) = view.span.robot {
        write!(text, ", robot {}", robot.saturating_add(1));
    }
    if !view.has_shots {
        text.add(", no shots");
    }
    text.add("</text>\n");
}

/// Adds how many of the shots are drawn, if not all.
fn add_share(text: &mut Draft, shots: &Shots) {
    let (drawn, count) = (shots.as_slice().len() as u64, shots.count());
    if drawn != count {
        text.add(r#"<text x="1080" y="114" font-size="14">"#);
        writeln!(text, "the last {drawn} of {count} shots are drawn</text>");
    }
}

/// Adds a robot's entry: its colour, its name, and how it ended.
fn add_entry(text: &mut Draft, robot: &Robot<'_>) {
    let y = 150 + (robot.index % MOST_ROBOTS) as u32 * 64;
    let colour = colour(robot.index);
    text.add("<g><title>");
    add_name(text, robot.name);
    write!(text, r#"</title><rect x="1080" y="{}""#, y - 20);
    write!(text, r#" width="24" height="24" fill="{colour}"/>"#);
    write!(text, r#"<text x="1116" y="{y}" font-weight="bold">"#);
    write!(text, "{}) ", robot.number());
    add_short_name(text, robot.name);
    text.add("</text>");
    add_state(text, robot.track, y + 24);
    text.add("</g>\n");
}

/// Adds how a robot ended, in this row.
fn add_state(text: &mut Draft, track: &Track, y: u32) {
    let state = if track.is_alive() { "alive" } else { "dead" };
    write!(text, r#"<text x="1116" y="{y}">{state}"#);
    write!(text, " damage {}%", track.damage);
    if let Some(update) = track.death {
        write!(text, " after cycle {}", cycle_of(update));
    }
    text.add("</text>");
}
