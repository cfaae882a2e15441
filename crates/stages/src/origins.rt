//! The line of a source that each instruction of its program comes from.

use derivations::{SourcePosition, SourcePositions};
use std::alloc::{AllocError, Global};

/// The lines of instructions, from 1, by address, and the addresses by line.
#[derive(Drop)]
pub struct Origins {
    lines: Vec<usize>,
    by_line: Vec<(usize, usize)>,
    distinct: Vec<usize>,
}

impl Origins {
    /// Makes those of no instruction.
    pub fn none(alloc: Global) -> Origins {
        Origins {
            lines: Vec::new(alloc),
            by_line: Vec::new(alloc),
            distinct: Vec::new(alloc),
        }
    }

    /// Takes the line of each of the first instructions, at most this many, from their positions.
    pub fn of(alloc: Global, found: &SourcePositions, most: usize) -> Result<Origins, AllocError> {
        let mut origins = Origins::none(alloc);
        let positions = found.places();
        origins.add(positions.get(..most).unwrap_or(positions))?;
        Ok(origins)
    }

    /// Adds the lines of these positions, of which each is an instruction's.
    fn add(&mut self, positions: &[SourcePosition]) -> Result<(), AllocError> {
        for (address, position) in positions.iter().enumerate() {
            let line = position.line as usize;
            self.lines.push(line)?;
            self.by_line.push((line, address))?;
            self.distinct.push(line)?;
        }
        self.by_line.sort()?;
        self.distinct.sort()?;
        self.distinct.dedup();
        Ok(())
    }

    /// Returns the line of the instruction of an address, 0 if there is none.
    pub fn line(&self, address: usize) -> usize {
        self.lines.get(address).copied().unwrap_or(0)
    }

    /// Returns the instructions that come from a line, the first address first: each with the line.
    pub fn of_line(&self, line: usize) -> &[(usize, usize)] {
        let begin = self.by_line.partition_point(|made| made.0 < line);
        let end = self.by_line.partition_point(|made| made.0 <= line);
        self.by_line.get(begin..end).unwrap_or(&[])
    }

    /// Returns the lines from which instructions come, each once, the first line first.
    pub fn distinct(&self) -> &[usize] {
        self.distinct.as_slice()
    }

    /// Returns how many lines before this one have instructions.
    pub fn rank(&self, line: usize) -> usize {
        self.distinct.partition_point(|other| *other < line)
    }
}
