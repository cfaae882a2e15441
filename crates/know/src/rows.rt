//! What rows are about, and the fields that several kinds of rows have.

use derivations::Located;
use grammar::Profile;
use std::alloc::Global;
use std::str;
use tools::Object;

/// A source that is told of.
#[derive(Clone, Copy)]
pub struct Subject<'a> {
    /// What memory is taken from.
    pub alloc: Global,
    /// Its bytes.
    pub source: &'a [u8],
    /// Its tokens, up to a lexical error if it has one.
    pub tokens: &'a [Located],
    /// The language profile.
    pub profile: Profile,
}

impl<'a> Subject<'a> {
    /// Returns the bytes of a place as text. Those of tokens are ASCII.
    pub fn words(&self, place: (usize, usize)) -> &'a str {
        let (start, end) = place;
        str::from_utf8(self.source.get(start..end).unwrap_or(&[])).unwrap_or("?")
    }
}

/// Adds the place of bytes: how many are before them, and how many there are up to their last one.
pub fn add_range(row: &mut Object<'_>, start: usize, end: usize) {
    row.number("start", start as u64);
    row.number("end", end as u64);
}

/// Adds the line and the column, in bytes from 1.
pub fn add_position(row: &mut Object<'_>, line: u32, column: u32) {
    row.number("line", u64::from(line));
    row.number("column", u64::from(column));
}
