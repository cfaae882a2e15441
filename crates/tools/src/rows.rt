//! Rows: objects of JSON on a line each, which begin with what they are.

use crate::json::Object;
use crate::texts::{Draft, Text};
use grammar::Intrinsic;

/// Begins a row of a kind at the end of a text.
pub fn begin_row<'t>(text: &'t mut Draft, kind: &str) -> Object<'t> {
    let mut row = Object::begin(text);
    row.words("row", kind);
    row
}

/// Adds a row for each intrinsic function, with how many arguments it uses.
pub fn add_intrinsics(text: &mut Draft) {
    for intrinsic in &Intrinsic::ALL {
        let mut row = begin_row(text, "intrinsic");
        row.words("name", intrinsic.name());
        row.number("arguments", u64::from(intrinsic.argument_count()));
        row.end();
        text.add("\n");
    }
}
