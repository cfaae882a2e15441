//! How much room a robot needs: the words of its stack, and the frames that are open at once.
#![tactic(auto)]

mod bounding;
mod chains;
mod constructs;
mod laws;
mod room;
mod tables;

pub use bounding::{Bound, bounds, chain};
pub use constructs::Calls;
pub use laws::{known_needs, restarts_at_return, room_is_enough};
pub use room::Room;
pub use tables::{all_needs, need};
