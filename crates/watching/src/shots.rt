//! Shots: from where they were fired to where they burst, and whether they hurt a robot.

ghost use Rattle.std.specs.Prelude.{◌≡◌, ◌+◌, ◌-◌, ◌*◌, ◌%◌, ◌^◌, ◌≤◌, ◌<◌, ◌++◌, ◌∷◌, [], false, nat_lt, length, map, slice_set, ℤ, pos, ◌*ℤ◌, unsigned_abs};
ghost use Rattle.arith.specs.Degree.{degree_of};
ghost use Rattle.arena.specs.Leg.{along, clamped};
ghost use Rattle.arena.specs.Rules.{last_place};
ghost use Rattle.arena.specs.Collisions.{square};
ghost use Rattle.arena.specs.Shots.{aimed_x, aimed_y, flight, ring};
ghost use Rattle.arena.specs.Arena.{most_updates};
ghost use Rattle.watching.specs.Shots.{IsShotOf, marked};

use crate::places::Place;
use arena::{LAST_RING, MOST_RANGE, aimed, flight};
use arith::{cosine_at, norm_degree, sine_at};
use arrayvec::ArrayVec;

/// The most shots that are kept: the last ones.
pub const MOST_SHOTS: usize = 2000;

/// The greatest distance at which a burst hurts, in tenths of a metre.
const REACH: u32 = LAST_RING as u32;

/// A shot: who fired it, after how many updates and where, the update and the place of its burst, and whether that hurt
/// a robot.
#[derive(Clone, Copy, Default, Drop)]
pub struct Shot {
    /// The robot's number, from 0.
    pub robot: usize,
    /// The updates before it was fired.
    pub fired: u32,
    /// Where it was fired.
    pub from: Place,
    /// The update in which it bursts.
    pub burst: u32,
    /// Where it bursts.
    pub to: Place,
    /// Whether its burst hurt a robot.
    pub hit: bool,
}

impl Shot {
    /// Makes the shot of a robot that calls `cannon` with these arguments after the given number of updates. It has
    /// hurt nobody yet.
    #[tactic(auto, unfolding(arena::specs::Shots::aimed_x, arena::specs::Shots::aimed_y))]
    pub fn new(robot: usize, updates: u32, from: Place, arguments: [i32; 2]) -> Shot
        requires { updates ≤ most_updates }
        ensures { (d r : ℤ) → arguments ≡ d ∷ r ∷ [] → IsShotOf robot updates from d r result }
    {
        let degree = norm_degree(arguments[0]);
        let range = range(arguments[1]);
        let x = aimed(from.x, range, cosine_at(degree));
        let y = aimed(from.y, range, sine_at(degree));
        Shot {
            robot,
            fired: updates,
            from,
            burst: updates + flight(range),
            to: Place { x, y },
            hit: false,
        }
    }

    /// Reports whether the burst hurts a robot that is at this place then.
    #[tactic(auto, unfolding(arena::specs::Shots::ring, arena::specs::Collisions::square))]
    pub fn hurts(&self, place: Place) -> bool
        ensures { result ≡ nat_lt 0 (ring (square place.x place.y self.now.to.x self.now.to.y)) }
    {
        let east = u32::from(place.x.abs_diff(self.to.x));
        let north = u32::from(place.y.abs_diff(self.to.y));
        east * east + north * north <= REACH * REACH
    }

    /// Marks the shot if its burst in this update hurts a robot that is at this place then.
    fn mark(&mut self, update: u32, place: Place)
        ensures { self.new ≡ marked update place self.old }
    {
        if self.burst == update && self.hurts(place) {
            self.hit = true;
        }
    }
}

/// Returns the range of a shot in metres that is asked for.
#[tactic(auto, unfolding(arena::specs::Leg::clamped))]
fn range(asked: i32) -> u16
    ensures value { result ≡ clamped MOST_RANGE asked }
    ensures most { result ≤ MOST_RANGE }
{
    asked.clamp(0, i32::from(MOST_RANGE)) as u16
}

/// The last shots of a match, at most 2,000, and how many were fired: when they are full, a new one replaces the
/// oldest.
#[derive(Drop)]
pub struct Shots {
    shots: ArrayVec<Shot, MOST_SHOTS>,
    oldest: usize,
    count: u64,
    ghost within: { oldest < 2000 },
}

impl Shots {
    /// Makes no shots.
    pub fn new() -> Shots
        ensures none { result.shots.items ≡ [] }
        ensures start { result.oldest ≡ 0 }
        ensures count { result.count ≡ 0 }
    {
        Shots {
            shots: ArrayVec::new(),
            oldest: 0,
            count: 0,
        }
    }

    /// Keeps a shot, in place of the oldest one if they are full.
    pub fn add(&mut self, shot: Shot)
        ensures room { length self.old.shots.items < MOST_SHOTS → self.new.shots.items ≡ self.old.shots.items ++ shot ∷ [] }
        ensures start { length self.old.shots.items < MOST_SHOTS → self.new.oldest ≡ self.old.oldest }
        ensures full { length self.old.shots.items ≡ MOST_SHOTS
            → self.new.shots.items ≡ slice_set self.old.shots.items self.old.oldest shot }
        ensures next { length self.old.shots.items ≡ MOST_SHOTS → self.new.oldest ≡ (self.old.oldest + 1) % MOST_SHOTS }
        ensures count { self.old.count < 2 ^ 64 - 1 → self.new.count ≡ self.old.count + 1 }
    {
        self.count = self.count.saturating_add(1);
        if self.shots.is_full() {
            self.shots[self.oldest] = shot;
            self.oldest = (self.oldest + 1) % MOST_SHOTS;
        } else {
            self.shots.push(shot);
        }
    }

    /// Marks the shots whose bursts in this update hurt a robot that is at this place then.
    pub fn mark(&mut self, update: u32, place: Place)
        ensures shots { self.new.shots.items ≡ map (marked update place) self.old.shots.items }
        ensures start { self.new.oldest ≡ self.old.oldest }
        ensures count { self.new.count ≡ self.old.count }
    {
        mark(self.shots.as_mut_slice(), update, place);
    }

    /// Returns how many shots were fired, those that are no longer kept too.
    pub fn count(&self) -> u64
        ensures { result ≡ self.now.count }
    {
        self.count
    }

    /// Returns the shots, in no order.
    pub fn as_slice(&self) -> &[Shot]
        ensures { result.now ≡ self.now.shots.items }
    {
        self.shots.as_slice()
    }
}

/// Marks those of some shots whose bursts in this update hurt a robot that is at this place then.
fn mark(shots: &mut [Shot], update: u32, place: Place)
    ensures { shots.new ≡ map (marked update place) shots.old }
{
    for shot in shots.iter_mut() {
        shot.mark(update, place);
    }
}
