//! Where and why a robot restarted.

use crate::items::Items;
use crate::reports::Subject;
use crate::tallies::{add, largest_first};
use code::{Cause, Frame};
use std::alloc::{AllocError, Global};
use tools::Draft;

/// The most positions of restarts that the report has.
const MOST_TOLD: usize = 10;

/// Open calls from one address of a program.
#[derive(Clone, Copy, Drop)]
pub struct Crowd {
    /// The address of the call.
    pub address: usize,
    /// How many of these calls are open.
    pub calls: usize,
}

/// Returns the address from which most of the open calls were made, if there are several from one address: the first of
/// several such addresses.
pub fn crowd_of(frames: &[Frame]) -> Option<Crowd> {
    let mut found = None;
    let mut most = 1;
    for frame in frames {
        let calls = calls_to(frames, frame.back);
        if most < calls {
            most = calls;
            found = Some(Crowd {
                address: usize::from(frame.back).saturating_sub(1),
                calls,
            });
        }
    }
    found
}

/// Returns how many open calls return to an address: none to 0, which the frames have whose call is still to come.
fn calls_to(frames: &[Frame], back: u16) -> usize {
    let mut calls: usize = 0;
    for frame in frames {
        if back > 0 && frame.back == back {
            calls = calls.saturating_add(1);
        }
    }
    calls
}

/// Adds where and why a robot restarted, the most frequent positions first. Those in one line of a function for one cause
/// are one.
pub fn add_restarts(text: &mut Draft, subject: &Subject<'_>) -> Result<(), AllocError> {
    let mut items = Items::new("restarts", text, subject.columns);
    let counts = restarts_by_position(text.alloc(), subject)?;
    for (address, count) in &largest_first(counts, MOST_TOLD)? {
        add_restart(items.begin(), *address, *count, subject);
    }
    items.end(text)
}

/// Returns how often a robot restarted at each address: what is alike counts for the first address of it.
fn restarts_by_position(alloc: Global, subject: &Subject<'_>) -> Result<Vec<u64>, AllocError> {
    let mut counts = Vec::new(alloc);
    for (address, spot) in subject.tally.spots.iter().enumerate() {
        counts.push(0)?;
        if spot.restarts > 0 {
            let first = first_alike(address, subject);
            add(counts.as_mut_slice(), first, spot.restarts);
        }
    }
    Ok(counts)
}

/// Returns the first address at which the robot restarted for the same cause in the same line and function.
fn first_alike(address: usize, subject: &Subject<'_>) -> usize {
    let here = position_and_cause(address, subject);
    for before in 0..address {
        if position_and_cause(before, subject) == here {
            return before;
        }
    }
    address
}

/// Returns the line and the function of an address, and why the robot restarted there, if it did.
fn position_and_cause(address: usize, subject: &Subject<'_>) -> (u32, usize, Option<Cause>) {
    let cause = match subject.tally.spots.get(address) {
        Some(spot) => spot.cause,
        None => None,
    };
    let noted = subject.noted;
    let function = noted.named().function(address);
    (noted.note.positions.line(address), function, cause)
}

/// Adds the given number of restarts at an address, and how many of the open calls were from one line.
fn add_restart(item: &mut Draft, address: usize, count: u64, subject: &Subject<'_>) {
    let Some(spot) = subject.tally.spots.get(address) else {
        return;
    };
    let (line, function) = subject.noted.position(address);
    let (reason, from) = match spot.cause {
        Some(Cause::Words) => ("stack full", "calls open from"),
        Some(Cause::Frames) => ("too many calls open", "from"),
        Some(Cause::Returned) => ("main returned", "calls open from"),
        None => ("", ""),
    };
    write!(item, "{count} in line {line} of {function}: {reason}");
    if let Some(crowd) = spot.crowd {
        let line = subject.noted.note.positions.line(crowd.address);
        write!(item, ", {} {from} line {line}", crowd.calls);
    }
}
