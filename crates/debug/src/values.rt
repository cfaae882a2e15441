//! The value of an expression at a moment of a match.

ghost use Rattle.std.specs.Prelude.{◌<◌, ◌≤◌, length};

use crate::expressions::Expression;
use crate::open_calls::open_calls;
use crate::refusals::Refusal;
use crate::sessions::Session;
use arena::MOST_ROBOTS;
use code::Machine;
use std::alloc::{AllocError, Global};
use tools::Draft;
use watching::Pilot;

/// Adds the value of an expression after a cycle: in the call with which this many frames are open, or in the innermost
/// one for 0.
pub fn add_value<'a>(
    text: &mut Draft,
    session: &Session<'_>,
    pilots: &mut [Pilot<'_>],
    cycle: u32,
    frames: usize,
    words: &'a str,
) -> Result<(), Refusal<'a>>
    requires some { 2 ≤ length pilots.old }
    requires most { length pilots.old ≤ MOST_ROBOTS }
    requires inside { session.now.robot < length pilots.old }
{
    let machine = session.machine_at(pilots, cycle);
    let Some((address, home)) = call_of(text.alloc(), machine, frames)? else {
        return Err(Refusal::Call(frames));
    };
    let noted = &session.noted;
    let function = noted.named().function(address);
    let mut expression = Expression::read(text.alloc(), noted, function, words)?;
    let value = expression.value(machine, home)?;
    writeln!(text, "value\t{value}\n");
    Ok(())
}

/// Returns the address at which the call is with which this many frames are open, and where its variables begin.
fn call_of(
    alloc: Global,
    machine: &Machine,
    frames: usize,
) -> Result<Option<(usize, usize)>, AllocError> {
    for call in &open_calls(alloc, machine)? {
        if frames == 0 || call.frames == frames {
            return Ok(Some((call.address, call.home)));
        }
    }
    Ok(None)
}
