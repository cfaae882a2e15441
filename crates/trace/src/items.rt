//! The items of a line of a report, and tables of counts.

ghost use Rattle.std.specs.Prelude.{◌≡◌, ◌+◌, ◌/◌, ◌<◌, ◌^◌, max};

use std::alloc::AllocError;
use tools::{Draft, Text};
use watching::percent;

/// How many characters a line has before its items.
const INDENT: usize = 14;

/// What begins a further line of the same items.
const NEXT_LINE: &str = "\n              ";

/// The least count that is written in thousands.
const LEAST_THOUSANDS: u64 = 10_000_000;

/// The items of a line, with commas between them. Those that have no room go on in the next line, below the first one.
#[derive(Drop)]
pub struct Items {
    label: &'static str,
    /// The most characters of a line.
    columns: usize,
    /// All items, each but the last with its comma and a line end.
    all: Draft,
}

impl Items {
    /// Makes the items of a line with this label, without any so far. The line belongs to a report, whose lines have at
    /// most this number of characters.
    pub fn new(label: &'static str, report: &Draft, columns: usize) -> Items {
        Items {
            label,
            columns,
            all: Draft::new(report.alloc()),
        }
    }

    /// Begins an item, and returns the text that it is added to.
    pub fn begin(&mut self) -> &mut Draft {
        if !self.all.is_empty() {
            self.all.add(",\n");
        }
        &mut self.all
    }

    /// Adds the line to a report. Nothing is added if it has no items. The only error is that memory was refused as an
    /// item was added.
    pub fn end(self, report: &mut Draft) -> Result<(), AllocError> {
        let all = self.all.finish()?;
        if all.is_empty() {
            return Ok(());
        }
        write!(report, "   {:<11}", self.label);
        let mut column = INDENT;
        for item in all.as_str().split('\n') {
            column = add_item(report, item, column, self.columns);
        }
        report.add("\n");
        Ok(())
    }
}

/// Adds an item after this column, in lines of this number of columns. One that is too long for any line is cut at its
/// blanks. Returns the column after it.
fn add_item(report: &mut Draft, item: &str, column: usize, columns: usize) -> usize {
    if item.chars().count() <= columns.saturating_sub(INDENT) {
        return add_piece(report, item, column, columns);
    }
    let mut after = column;
    for word in item.split(' ') {
        after = add_piece(report, word, after, columns);
    }
    after
}

/// Adds a piece after a blank, or in the next line if this one has no room for it. Returns the column after it.
fn add_piece(report: &mut Draft, piece: &str, column: usize, columns: usize) -> usize {
    let width = piece.chars().count();
    let after = column.saturating_add(1).saturating_add(width);
    if column != INDENT && after <= columns {
        write!(report, " {piece}");
        return after;
    }
    if column != INDENT {
        report.add(NEXT_LINE);
    }
    report.add(piece);
    INDENT.saturating_add(width)
}

/// Adds rows below the names of their columns: nothing if there are none. The only error is that memory was refused as a
/// row was added.
pub fn add_table(report: &mut Draft, columns: &str, rows: Draft) -> Result<(), AllocError> {
    let rows = rows.finish()?;
    if !rows.is_empty() {
        report.add(columns);
        report.add(rows.as_str());
    }
    Ok(())
}

/// Adds a count after a blank at least, in eight columns: in thousands if it has no room else.
pub fn add_count(text: &mut Draft, count: u64) {
    if count < LEAST_THOUSANDS {
        write!(text, "{count:>8}");
    } else {
        write!(text, "{:>7}k", count / 1000);
    }
}

/// How many parts a whole is shown in.
const PARTS: usize = 4;

/// Returns parts in percent of all of them, which add up to 100: each is rounded down, and then those from which most
/// was cut off get what lacks, of equal ones the first. All are 0 if the parts are.
pub fn percents(parts: [u64; PARTS]) -> [u64; PARTS] {
    let mut all: u64 = 0;
    for part in parts {
        all = all.saturating_add(part);
    }
    let (mut shares, mut cut) = ([0; PARTS], [0; PARTS]);
    for ((share, left), part) in shares.iter_mut().zip(cut.iter_mut()).zip(parts) {
        *share = percent(part, all);
        *left = part.saturating_mul(100) % all.max(1);
    }
    for _ in 1..PARTS {
        give_one(&mut shares, &mut cut);
    }
    shares
}

/// Gives one percent to the share from which most was cut off, if shares lack some to 100.
fn give_one(shares: &mut [u64; PARTS], cut: &mut [u64; PARTS]) {
    let mut lacking: u64 = 100;
    let mut most = 0;
    for (share, left) in shares.iter().zip(cut.iter()) {
        lacking = lacking.saturating_sub(*share);
        most = most.max(*left);
    }
    if lacking == 0 || most == 0 {
        return;
    }
    for (share, left) in shares.iter_mut().zip(cut.iter_mut()) {
        if *left == most {
            *share = share.saturating_add(1);
            *left = 0;
            return;
        }
    }
}

/// Returns the mean of some numbers by their sum, to the nearest whole one.
pub fn mean(all: u64, count: u64) -> u64
    ensures { all + count / 2 < 2 ^ 64 → result ≡ (all + count / 2) / max count 1 }
{
    all.saturating_add(count / 2) / count.max(1)
}
