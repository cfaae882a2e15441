//! The field of robots: motion, walls, collisions, shots, bursts, the start of a match, and the intrinsic functions.
#![tactic(auto)]

mod arcs;
mod arenas;
mod axes;
mod bursts;
mod collisions;
pub mod laws;
mod missile;
mod missiles;
mod motion;
mod outlook;
mod places;
mod points;
mod random;
mod robots;
mod rules;
mod scans;
mod slots;
mod starts;
mod updates;
mod ways;
mod worked_fields;

pub use arenas::Arena;
pub use bursts::Burst;
pub use missile::{aimed, flight};
pub use rules::{
    ACCELERATION, DEADLY, INNER_RING, INNER_RING_DAMAGE, KNOCK_DAMAGE, LAST_METRE, LAST_PLACE,
    LAST_RING, LAST_RING_DAMAGE, MIDDLE_RING, MIDDLE_RING_DAMAGE, MISSILE_SPEED, MOST_BURSTS,
    MOST_MISSILES, MOST_RANDOM_LIMIT, MOST_RANGE, MOST_RESOLUTION, MOST_ROBOTS, MOST_SPEED, NEAR,
    TURNING_SPEED, WALL_DAMAGE,
};
pub use worked_fields::known_fields;
