//! The field: its grid, and its scale in metres.

use tools::{Draft, Text};
use watching::{MARGIN, SIDE};

/// The distance between two lines of the grid: 100 metres.
const GRID: u32 = 100;

/// Adds the field: its grid, its scale and its border.
pub fn add_field(text: &mut Draft) {
    add_grid(text);
    add_scale(text);
    write!(text, r#"<rect x="{MARGIN}" y="{MARGIN}""#);
    write!(text, r#" width="{SIDE}" height="{SIDE}""#);
    writeln!(text, r##" fill="none" stroke="#444444"/>"##);
}

/// Adds the lines of the grid.
fn add_grid(text: &mut Draft) {
    text.add(r##"<path fill="none" stroke="#dddddd" d=""##);
    for line in 0..=SIDE / GRID {
        let at = MARGIN + GRID * line;
        write!(text, "M{at} {MARGIN}v{SIDE}M{MARGIN} {at}h{SIDE}");
    }
    text.add("\"/>\n");
}

/// Adds the metres beside the lines.
fn add_scale(text: &mut Draft) {
    text.add(r##"<g fill="#777777" font-size="14">"##);
    for line in 0..=SIDE / GRID {
        let metres = GRID * line;
        let (x, y) = (MARGIN + metres, MARGIN + SIDE - metres + 5);
        write!(text, r#"<text x="{x}" y="1070" text-anchor="middle">"#);
        write!(text, r#"{metres}</text><text x="42" y="{y}""#);
        write!(text, r#" text-anchor="end">{metres}</text>"#);
    }
    text.add("</g>\n");
}
