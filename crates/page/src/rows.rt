//! Rows of a film: fields with tabs between them.

use arrayvec::ArrayString;
use std::fmt;
use std::fmt::Write;
use watching::{Event, Field};

/// The most bytes of a row. A row of five numbers is never so long; of a longer one the fields are left out that don't
/// fit.
pub(crate) const ROW_BYTES: usize = 200;

/// A row.
#[derive(Drop)]
pub(crate) struct Row {
    text: ArrayString<ROW_BYTES>,
}

impl Row {
    /// Makes the row of an event: its cycle, its robot, counted from 0, its kind and its fields.
    pub(crate) fn new(cycle: u32, robot: usize, event: &Event<'_>) -> Row {
        let mut row = Row {
            text: ArrayString::new(),
        };
        let _ = row.fill(cycle, robot, event);
        let _ = row.text.write_str("\n");
        row
    }

    /// Returns the bytes of the row.
    pub(crate) fn as_slice(&self) -> &[u8] {
        self.text.as_bytes()
    }

    /// Adds what the row says, up to the first field for which there is no room.
    fn fill(&mut self, cycle: u32, robot: usize, event: &Event<'_>) -> fmt::Result {
        write!(self.text, "{cycle}\t{}\t{}", robot % 100 + 1, event.kind)?;
        for field in &event.fields {
            match field {
                Field::Number(number) => write!(self.text, "\t{number}")?,
                Field::Text(text) => write!(self.text, "\t{text}")?,
            }
        }
        Ok(())
    }
}
