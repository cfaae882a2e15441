//! A row of numbers.

use tools::{Draft, Text, begin_row};

/// Adds a row of numbers with their names.
pub fn add_numbers(text: &mut Draft, kind: &str, numbers: &[(&str, u64)]) {
    let mut row = begin_row(text, kind);
    for (name, number) in numbers {
        row.number(name, *number);
    }
    row.end();
    text.add("\n");
}
