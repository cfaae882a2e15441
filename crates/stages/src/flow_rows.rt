//! The control flow graph of each function as rows: a block in each.

use crate::flow::{Block, blocks_of};
use crate::origins::Origins;
use crate::robots::Robot;
use std::alloc::AllocError;

/// Adds a line for each function, and below it one for each of its blocks: the addresses, the lines of the source, and
/// the blocks that it leads to, each by the address of its first instruction.
pub fn add_flow_rows(text: &mut String, robot: &Robot) -> Result<(), AllocError> {
    text.push_str("  from    to  lines         goes to\n")?;
    for block in &blocks_of(*text.allocator(), &robot.program)? {
        if let Some(name) = robot.function_begun_at(block.begin) {
            writeln!(text, "{name}")?;
        }
        add_block_row(text, robot, block)?;
    }
    Ok(())
}

/// Adds the line of a block.
pub fn add_block_row(text: &mut String, robot: &Robot, block: &Block) -> Result<(), AllocError> {
    let mut lines = String::new(*text.allocator());
    add_lines(&mut lines, &robot.origins, block)?;
    write!(text, "{:>6}{:>6}  {lines:<14}", block.begin, block.last)?;
    add_ways(text, block)
}

/// Adds the lines that the instructions of a block come from, in their order: lines one after the other as a range.
fn add_lines(text: &mut String, origins: &Origins, block: &Block) -> Result<(), AllocError> {
    let mut first = origins.line(block.begin);
    let mut last = first;
    for address in block.begin..=block.last {
        let line = origins.line(address);
        if line != last && line != last.saturating_add(1) {
            add_range(text, first, last)?;
            text.push_str(", ")?;
            first = line;
        }
        last = line;
    }
    add_range(text, first, last)
}

/// Adds a range of lines.
fn add_range(text: &mut String, first: usize, last: usize) -> Result<(), AllocError> {
    if last > first {
        write!(text, "{first}-{last}")
    } else {
        write!(text, "{first}")
    }
}

/// Adds where a block leads.
fn add_ways(text: &mut String, block: &Block) -> Result<(), AllocError> {
    let next = block.last.saturating_add(1);
    match (block.goes_on, block.jump) {
        (true, None) => write!(text, "{next}")?,
        (true, Some(address)) => write!(text, "{next}, or {address} if 0")?,
        (false, Some(address)) => write!(text, "{address}")?,
        (false, None) => text.push_str("returns")?,
    }
    text.push_str(if block.is_reached {
        "\n"
    } else {
        "  ; nothing leads here\n"
    })
}
