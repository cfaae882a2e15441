//! Sources of tests, by their parts.

use std::alloc::{AllocError, Global};

/// A part of a source.
#[derive(Clone, Copy)]
pub enum Part {
    /// This text.
    Once(&'static [u8]),
    /// This text, repeated this many times.
    Times(&'static [u8], usize),
}

/// Makes the source of these parts.
pub fn source_of(alloc: Global, parts: &[Part]) -> Result<Vec<u8>, AllocError> {
    let mut source = Vec::new(alloc);
    for part in parts {
        match *part {
            Part::Once(text) => source.extend_from_slice(text)?,
            Part::Times(text, times) => add_times(&mut source, text, times)?,
        }
    }
    Ok(source)
}

/// Makes a source of `count` names of a letter and two digits, each before a text, and of what is before and after.
pub fn numbered(
    alloc: Global,
    before: &[u8],
    name: &[u8],
    text: &[u8],
    count: u8,
    after: &[u8],
) -> Result<Vec<u8>, AllocError> {
    let mut source = Vec::from_slice(alloc, before)?;
    for number in 0..count {
        source.extend_from_slice(name)?;
        source.extend_from_slice(&[b'0' + number % 100 / 10, b'0' + number % 10])?;
        source.extend_from_slice(text)?;
    }
    source.extend_from_slice(after)?;
    Ok(source)
}

/// Adds a text `times` times.
fn add_times(source: &mut Vec<u8>, text: &[u8], times: usize) -> Result<(), AllocError> {
    for _ in 0..times {
        source.extend_from_slice(text)?;
    }
    Ok(())
}
