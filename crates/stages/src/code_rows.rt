//! A program's code below the lines of its source.

use crate::robots::Robot;
use crate::texts::{lines_of, shown};
use std::alloc::AllocError;

/// Adds each line of a robot's source, and below it the instructions that come from it, with the names that they speak
/// of.
pub fn add_listing(text: &mut String, source: &[u8], robot: &Robot) -> Result<(), AllocError> {
    let alloc = *text.allocator();
    for (index, line) in lines_of(alloc, source)?.iter().enumerate() {
        let number = index.saturating_add(1);
        let line = shown(alloc, line)?;
        let gap = if line.is_empty() { "" } else { " " };
        writeln!(text, "{number:>5} |{gap}{line}")?;
        for (_, address) in robot.origins.of_line(number) {
            add_instruction(text, robot, *address)?;
        }
    }
    Ok(())
}

/// Adds the instruction of an address.
fn add_instruction(text: &mut String, robot: &Robot, address: usize) -> Result<(), AllocError> {
    let instruction = robot.instruction(*text.allocator(), address)?;
    match robot.named().name_in(address) {
        Some(name) => writeln!(text, "        {address:>5} {instruction:<14} ; {name}"),
        None => writeln!(text, "        {address:>5} {instruction}"),
    }
}
