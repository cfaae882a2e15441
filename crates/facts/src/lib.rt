//! What is known of a robot before it fights, and how it is written: the room that it needs at most, and what its
//! functions and the turns of its loops take.
#![tactic(auto)]

mod chains;
mod facts;
mod places;
mod rows;
mod ways;

pub use chains::{Chain, Link};
pub use facts::{Facts, Part};
pub use rows::{add_call, add_gap, add_room, add_rows, add_shot, add_span, add_turn};
pub use ways::Stretch;
