//! Marks of instructions: those of lines and of functions.

use crate::refusals::Refusal;
use notes::NotedProgram;
use settings::value_number;
use std::alloc::{AllocError, Global};

/// Marks the instructions of the lines of a list, as `3` or `5,8-12`: all of them, or only those at which a line is
/// entered.
pub fn mark_lines<'a>(
    marks: &mut Vec<bool>,
    noted: &NotedProgram<'_>,
    list: &'a str,
    are_all: bool,
) -> Result<(), Refusal<'a>> {
    let lines = lines_of(*marks.allocator(), list)?;
    let (named, positions) = (noted.named(), &noted.note.positions);
    for address in 0..noted.program.instructions().len() {
        let is_marked = is_listed(lines.as_slice(), positions.line(address))
            && (are_all || named.is_entry(positions, address));
        marks.push(is_marked).map_err(AllocError::from)?;
    }
    if marks.as_slice().contains(&true) {
        return Ok(());
    }
    Err(Refusal::NoCode(list))
}

/// Marks the instructions of a function, by its number.
pub fn mark_function(
    marks: &mut Vec<bool>,
    noted: &NotedProgram<'_>,
    function: usize,
) -> Result<(), AllocError> {
    let named = noted.named();
    for address in 0..noted.program.instructions().len() {
        marks.push(named.function(address) == function)?;
    }
    Ok(())
}

/// Reads a list of lines: each part is a line, or the first and the last of some.
fn lines_of<'a>(alloc: Global, list: &'a str) -> Result<Vec<(u32, u32)>, Refusal<'a>> {
    let mut lines = Vec::new(alloc);
    for part in list.split(',') {
        let (first, last) = part.split_once('-').unwrap_or((part, part));
        let (Some(first), Some(last)) = (line_in(first), line_in(last)) else {
            return Err(Refusal::Lines(list));
        };
        lines.push((first, last)).map_err(AllocError::from)?;
    }
    Ok(lines)
}

/// Reads the number of a line.
fn line_in(word: &str) -> Option<u32> {
    Some(value_number(word, 1, u64::from(u32::MAX))? as u32)
}

/// Reports whether a line is in a list.
fn is_listed(lines: &[(u32, u32)], line: u32) -> bool {
    for (first, last) in lines {
        if *first <= line && line <= *last {
            return true;
        }
    }
    false
}
