//! The picture of a match, as SVG.

use crate::field::add_field;
use crate::legend::add_legend;
use crate::matches::Recording;
use crate::paths::{add_end, add_track};
use crate::requests::Request;
use crate::scenes::Scene;
use crate::shots::add_shots;
use crate::strip::add_strip;
use std::alloc::{AllocError, Global};
use tools::{Draft, Text};

/// What comes before the field: the picture's size, the field's border, by which bursts are cut, and a burst, whose
/// three rings are 40, 20 and 5 metres from it.
const HEAD: &str =
    "<svg xmlns=\"http://www.w3.org/2000/svg\" viewBox=\"0 0 1500 1100\" font-family=\"sans-serif\" font-size=\"18\">
<defs><clipPath id=\"field\"><rect x=\"50\" y=\"50\" width=\"1000\" height=\"1000\"/></clipPath>
<g id=\"burst\" stroke-width=\"1\"><circle r=\"40\" fill=\"#ffe9a8\" fill-opacity=\".35\" stroke=\"#e0b040\"/>\
<circle r=\"20\" fill=\"#ffc266\" fill-opacity=\".45\" stroke=\"#e08a30\"/><circle r=\"5\" fill=\"#e2471f\" stroke=\"#a02c10\"/></g></defs>
<rect width=\"1500\" height=\"1100\" fill=\"#ffffff\"/>
";

/// What comes before the robots' ends: their numbers are bold, with a light edge.
const ENDS: &str =
    "<g font-weight=\"bold\" font-size=\"22\" stroke=\"#ffffff\" stroke-width=\"5\" paint-order=\"stroke\">\n";

/// Draws what is asked for of the match that was recorded. The only error is that memory is refused.
pub fn drawn(
    alloc: Global,
    request: &Request<'_>,
    recording: &Recording,
) -> Result<String, AllocError> {
    let mut text = Draft::new(alloc);
    add_picture(&mut text, &Scene::of(alloc, request, recording)?);
    text.finish()
}

/// Adds the whole picture. The robots that are drawn have their ends above all paths.
fn add_picture(text: &mut Draft, scene: &Scene<'_>) {
    text.add(HEAD);
    add_field(text);
    add_shots(text, scene.recording.shots.as_slice(), scene.period);
    for robot in &scene.robots {
        if scene.request.view.span.has_robot(robot.index) {
            add_track(text, robot, scene.period);
        }
    }
    text.add(ENDS);
    for robot in &scene.robots {
        if scene.request.view.span.has_robot(robot.index) {
            add_end(text, robot, scene.period);
        }
    }
    text.add("</g>\n");
    add_legend(text, scene);
    add_strip(text, scene);
    text.add("</svg>\n");
}
