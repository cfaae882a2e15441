//! The calls that are open at a moment of a match.

ghost use Rattle.std.specs.Prelude.{◌<◌, ◌≤◌, length};

use crate::sessions::Session;
use arena::MOST_ROBOTS;
use code::Machine;
use std::alloc::{AllocError, Global};
use tools::{Draft, Text};
use watching::Pilot;

/// A call that is open.
#[derive(Clone, Copy, Drop)]
pub struct OpenCall {
    /// How many frames are open with it.
    pub frames: usize,
    /// The address at which the robot is in it.
    pub address: usize,
    /// The word at which its variables begin.
    pub home: usize,
}

/// Lists the calls that are open, the innermost first. Frames of calls whose arguments are being worked out have none.
pub fn open_calls(alloc: Global, machine: &Machine) -> Result<Vec<OpenCall>, AllocError> {
    let mut calls = Vec::new(alloc);
    let mut address = machine.address();
    let mut frames = machine.frames().len();
    for frame in machine.frames().iter().rev() {
        // the first frame is main's, and each other call that has begun has an address to return to
        if frames == 1 || frame.back > 0 {
            let home = usize::from(frame.base);
            calls.push(OpenCall {
                frames,
                address,
                home,
            })?;
            address = usize::from(frame.back).saturating_sub(1);
        }
        frames = frames.saturating_sub(1);
    }
    Ok(calls)
}

/// Adds a row for each call that is open after a cycle, the innermost first, and an empty line. The only error is that
/// memory is refused.
pub fn add_calls(
    text: &mut Draft,
    session: &Session<'_>,
    pilots: &mut [Pilot<'_>],
    cycle: u32,
) -> Result<(), AllocError>
    requires some { 2 ≤ length pilots.old }
    requires most { length pilots.old ≤ MOST_ROBOTS }
    requires inside { session.now.robot < length pilots.old }
{
    let machine = session.machine_at(pilots, cycle);
    for call in &open_calls(text.alloc(), machine)? {
        let OpenCall {
            frames,
            address,
            ..
        } = *call;
        let (line, function) = session.noted.position(address);
        let column = session.noted.note.positions.column(address);
        writeln!(
            text,
            "call\t{frames}\t{address}\t{line}\t{column}\t{function}"
        );
    }
    text.add("\n");
    Ok(())
}
