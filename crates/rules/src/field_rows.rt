//! The rules of the field in numbers, as a row.

use crate::rows::add_numbers;
use arena::{
    ACCELERATION, DEADLY, INNER_RING, INNER_RING_DAMAGE, KNOCK_DAMAGE, LAST_METRE, LAST_PLACE,
    LAST_RING, LAST_RING_DAMAGE, MIDDLE_RING, MIDDLE_RING_DAMAGE, MISSILE_SPEED, MOST_MISSILES,
    MOST_RANDOM_LIMIT, MOST_RANGE, MOST_RESOLUTION, MOST_ROBOTS, MOST_SPEED, NEAR, TURNING_SPEED,
    WALL_DAMAGE,
};
use battles::UPDATE_CYCLES;
use tools::Draft;

/// The numbers of the field, in the units of `crates/arena/src/rules.rt`.
const FIELD: [(&str, u64); 22] = [
    ("most_robots", MOST_ROBOTS as u64),
    ("last_place", LAST_PLACE as u64),
    ("last_metre", LAST_METRE as u64),
    ("update_cycles", UPDATE_CYCLES as u64),
    ("deadly", DEADLY as u64),
    ("wall_damage", WALL_DAMAGE as u64),
    ("knock_damage", KNOCK_DAMAGE as u64),
    ("most_range", MOST_RANGE as u64),
    ("last_ring", LAST_RING as u64),
    ("last_ring_damage", LAST_RING_DAMAGE as u64),
    ("middle_ring", MIDDLE_RING as u64),
    ("middle_ring_damage", MIDDLE_RING_DAMAGE as u64),
    ("inner_ring", INNER_RING as u64),
    ("inner_ring_damage", INNER_RING_DAMAGE as u64),
    ("most_speed", MOST_SPEED as u64),
    ("turning_speed", TURNING_SPEED as u64),
    ("acceleration", ACCELERATION as u64),
    ("near", NEAR as u64),
    ("most_resolution", MOST_RESOLUTION as u64),
    ("missile_speed", MISSILE_SPEED as u64),
    ("most_missiles", MOST_MISSILES as u64),
    ("most_random_limit", MOST_RANDOM_LIMIT as u64),
];

/// Adds the row of the field.
pub fn add_field(text: &mut Draft) {
    add_numbers(text, "field", &FIELD);
}
