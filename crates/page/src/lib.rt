//! The engine for a page in a browser: runs over sources in memory that the caller lends.
#![tactic(auto)]

mod compiled_robots;
mod endings;
mod explaining;
mod exports;
mod filming;
mod films;
mod insides;
mod loop_turns;
mod missiles;
mod orders;
mod pilots;
mod robots;
mod rows;
mod running;
mod sheets;
mod source_parts;
mod sources;
mod stretches;
mod subjects;
mod targets;

pub use endings::Ending;
pub use explaining::{Topic, explain_robot};
pub use exports::{
    explain, film, film_windows, find, moment, order_bytes, places, robot_bytes, run, sheet_bytes,
    target_bytes, turns,
};
pub use filming::tell_robots;
pub use orders::Order;
pub use robots::{NAME_MAX, RobotFile, SOURCE_MAX};
pub use running::run_robots;
pub use sheets::{FRAME_BYTES, FRAMES, Sheet, SheetBlock};
pub use stretches::Stretch;
pub use subjects::Subject;
pub use targets::{MARKS, Target};
