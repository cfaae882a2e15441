//! The rules of the field in numbers. Places and distances are in tenths of a metre, speeds and damage in percent, if
//! nothing else is said.

/// The most robots in a match.
pub const MOST_ROBOTS: usize = 4;

/// The last place on each axis; the first is 0.
pub const LAST_PLACE: u16 = 9999;

/// The last place on each axis in whole metres, rounded down.
pub const LAST_METRE: u16 = LAST_PLACE / 10;

/// The first place of the low half of an axis in which robots start.
pub const FIRST_LOW_START: u32 = 1000;

/// The first place of the high half of an axis in which robots start.
pub const FIRST_HIGH_START: u32 = 6000;

/// How many places of each half robots start at.
pub const START_PLACES: u32 = 3000;

/// The greatest speed.
pub const MOST_SPEED: u16 = 100;

/// The greatest speed at which a robot turns.
pub const TURNING_SPEED: u8 = 50;

/// By how much the speed changes in an update.
pub const ACCELERATION: u8 = 10;

/// Robots collide when they are nearer than this on both axes.
pub const NEAR: u16 = 10;

/// The damage at which a robot is dead.
pub const DEADLY: u8 = 100;

/// What a wall takes from a robot that it stops.
pub const WALL_DAMAGE: u8 = 2;

/// What a collision takes from each of the two robots.
pub const KNOCK_DAMAGE: u8 = 2;

/// The greatest resolution of a scan, in degrees to either side.
pub const MOST_RESOLUTION: u16 = 10;

/// The greatest range of a shot, in metres.
pub const MOST_RANGE: u16 = 700;

/// How far a missile flies in an update, in metres.
pub const MISSILE_SPEED: u16 = 50;

/// The most missiles of a robot that are in the air at once.
pub const MOST_MISSILES: usize = 2;

/// The most missiles that burst in an update.
pub const MOST_BURSTS: usize = MOST_ROBOTS * MOST_MISSILES;

/// The radius of the inner ring of a burst.
pub const INNER_RING: u16 = 50;

/// The radius of the middle ring of a burst.
pub const MIDDLE_RING: u16 = 200;

/// The radius of the last ring of a burst, the widest.
pub const LAST_RING: u16 = 400;

/// What a burst takes in the inner ring, and the most that a burst takes.
pub const INNER_RING_DAMAGE: u8 = 10;

/// What a burst takes in the middle ring.
pub const MIDDLE_RING_DAMAGE: u8 = 5;

/// What a burst takes in the last ring.
pub const LAST_RING_DAMAGE: u8 = 3;

/// The most that the bursts of an update take.
pub const MOST_UPDATE_DAMAGE: u8 = MOST_BURSTS as u8 * INNER_RING_DAMAGE;

/// The greatest limit of a random number.
pub const MOST_RANDOM_LIMIT: i32 = 32767;
