//! Battles: the programs of one to four files fight on the field, cycle by cycle. From a battle down to a reply:
//!
//!     battles    a battle, from the start of a match to its outcome
//!     scheduler  its cycles: intervals, and the update after each (the arena's `update`)
//!     intervals  a robot's cycles between two updates: alone, or in turn with others
//!     turns      a robot's cycle in which it asks: the reply (the arena's `ask`, `scan`, `cannon`, `drive`, `draw`)
//!     passing    intervals in which no machine has to run, with their updates
//!
//! What asks nothing is run by the machine itself (`run_quiet` of crate engine).
#![tactic(auto)]

mod battle_executables;
mod battles;
mod intervals;
mod next_turns;
mod outcome;
mod programs;
mod runners;
mod running_ahead;
mod scheduler;
mod turns;
mod windows;

pub use battles::battle;
pub use intervals::UPDATE_CYCLES;
pub use outcome::Outcome;
pub use programs::Programs;
pub use runners::Machines;
