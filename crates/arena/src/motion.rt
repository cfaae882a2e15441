//! How a robot moves: its leg, with the sums of the way in place of the distance.

ghost use Rattle.std.specs.Prelude.{◌≡◌, true, ◌<◌, ◌≤◌, ◌/◌, pos, ◌*ℤ◌, unsigned_abs};
ghost use Rattle.arith.specs.Circle.{sine_at, cosine_at};
ghost use Rattle.arena.specs.Leg.{Leg, place_x, place_y, approached, leg_anew, steered, sped, travelled, clamped_at_walls, hits_wall, tried, stopped_by_walls};
ghost use Rattle.arena.specs.Sums.{sum_from, place_of, clamped_place_of, IsInField};
ghost use Rattle.arena.specs.Start.{robot_at_rest};
ghost use Rattle.arena.specs.Moved.{put_back};
ghost use Rattle.arena.specs.Answer.{with_wanted};
ghost use Rattle.arena.specs.Arena.{Motion, motion_of, is_steady};
ghost use Rattle.arena.specs.Still.{IsAtRest, OnlyTurns};
ghost use Rattle.arena.specs.Apart.{IsNearby, IsAtPlace, gap, sum_gap};

use crate::axes::{clamped_place_of, leads_beyond, metres_of, place_of, sum_at, sum_step};
use crate::points::Point;
use crate::rules::{ACCELERATION, LAST_METRE, MOST_SPEED, TURNING_SPEED};
use arith::{cosine_at, sine_at};
use std::marker::Model;

/// A robot's motion: for each axis a sum, which has its place, and how much the sum grows in an update; heading, speed,
/// and what the robot wants. So an update adds to the sums, and never works the way out anew from the leg's origin; the
/// place is worked out only if it is asked for. A robot is steady if it wants the heading and the speed that it has.
#[derive(Clone, Copy, Drop)]
pub struct Motion {
    east: i32,
    north: i32,
    step_east: i32,
    step_north: i32,
    heading: u16,
    wanted_heading: u16,
    speed: u8,
    wanted_speed: u8,
    steady: bool,
}

impl Model for Motion {
    ghost use Rattle.arena.specs.Arena.{Motion};

    ghost Value = { Motion };

    ghost use Rattle.arena.specs.Motions.{IsMotion, motion_kept, kept_of_motion};

    ghost view = { motion_kept };

    ghost inverse = { kept_of_motion };

    ghost invariant = { λ m. IsMotion (view m) };
}

impl Default for Motion {
    fn default() -> Motion {
        Motion::at_rest(Point::default())
    }
}

impl Motion {
    /// Makes the motion of a robot at rest at a place.
    pub fn at_rest(place: Point) -> Motion
        ensures { result ≡ motion_of (robot_at_rest place.x place.y).leg }
    {
        let still = Motion {
            east: 0,
            north: 0,
            step_east: 0,
            step_north: 0,
            heading: 0,
            speed: 0,
            wanted_heading: 0,
            wanted_speed: 0,
            steady: true,
        };
        still.on_new_leg(place)
    }

    /// Returns the place.
    pub fn place(&self) -> Point
        ensures { result ≡ record { x = self.now.x; y = self.now.y } }
    {
        Point::new(place_of(self.east), place_of(self.north))
    }

    /// Returns the place on the axis to the east, in whole metres rounded down.
    pub fn metres_x(&self) -> u16
        ensures value { result ≡ self.now.x / 10 }
        ensures most { result ≤ LAST_METRE }
    {
        metres_of(self.east)
    }

    /// Returns the place on the axis to the north, in whole metres rounded down.
    pub fn metres_y(&self) -> u16
        ensures value { result ≡ self.now.y / 10 }
        ensures most { result ≤ LAST_METRE }
    {
        metres_of(self.north)
    }

    /// Returns how far two robots are from each other, on the axis on which they are further apart, as a difference of
    /// sums.
    pub fn gap(&self, other: &Motion) -> u32
        ensures value { result ≡ sum_gap self.now other.now }
        ensures places { result / 100000 ≤ gap self.now other.now }
    {
        let on_x = (self.east as u32).abs_diff(other.east as u32);
        let on_y = (self.north as u32).abs_diff(other.north as u32);
        on_x.max(on_y)
    }

    /// Returns the present heading, in degrees.
    pub fn heading(&self) -> u16
        ensures value { result ≡ self.now.heading }
        ensures most { result < 360 }
    {
        self.heading
    }

    /// Returns the present speed, in percent.
    pub fn speed(&self) -> u8
        ensures value { result ≡ self.now.speed }
        ensures most { result ≤ MOST_SPEED }
    {
        self.speed
    }

    /// Reports whether the robot stands still and wants nothing else, so that an update leaves its leg as it is.
    pub fn is_at_rest(&self) -> bool
        ensures { result ≡ true → IsAtRest self.now }
    {
        self.speed == 0 && self.wanted_speed == 0 && self.wanted_heading == self.heading
    }

    /// Sets the heading and the speed that the robot wants.
    pub fn want(&mut self, degree: u16, speed: u8)
        requires degree { degree < 360 }
        requires speed { speed ≤ MOST_SPEED }
        ensures leg { (leg : Leg) → self.old ≡ motion_of leg → self.new ≡ motion_of (with_wanted leg degree speed) }
        ensures place { IsAtPlace self.old self.new }
    {
        self.wanted_heading = degree;
        self.wanted_speed = speed;
        self.steady = is_steady(self.heading, degree, self.speed, speed);
    }

    /// Returns the motion with its mark of steadiness worked out anew.
    fn with_steadiness(self) -> Motion
        ensures { result ≡ record self {
          steady = is_steady self.heading self.wanted_heading self.speed self.wanted_speed;
        } }
    {
        let steady = is_steady(
            self.heading,
            self.wanted_heading,
            self.speed,
            self.wanted_speed,
        );
        Motion { steady, ..self }
    }

    /// Begins a new leg at a place, with its heading and speed.
    fn on_new_leg(self, from: Point) -> Motion
        ensures { result ≡ record self {
          east = sum_from from.x (cosine_at self.heading) (pos 0);
          north = sum_from from.y (sine_at self.heading) (pos 0);
          x = from.x;
          y = from.y;
          step_east = pos self.speed *ℤ cosine_at self.heading;
          step_north = pos self.speed *ℤ sine_at self.heading;
          steady = is_steady self.heading self.wanted_heading self.speed self.wanted_speed;
        } }
    {
        let cosine = cosine_at(self.heading);
        let sine = sine_at(self.heading);
        let begun = Motion {
            east: sum_at(from.x(), cosine),
            north: sum_at(from.y(), sine),
            step_east: sum_step(self.speed, cosine),
            step_north: sum_step(self.speed, sine),
            ..self
        };
        begun.with_steadiness()
    }

    /// Turns to the wanted heading: begins a new leg at the present place.
    fn turned_to_wanted(self) -> Motion
        ensures leg { (leg : Leg) → self ≡ motion_of leg
            → result ≡ motion_of (record (leg_anew leg) { heading = leg.wanted_heading }) }
        ensures place { IsAtPlace self result }
    {
        let turned = Motion {
            heading: self.wanted_heading,
            ..self
        };
        turned.on_new_leg(self.place())
    }

    /// Turns at a low speed, and brakes for the turn at a high one.
    fn steered(self) -> Motion
        ensures leg { (leg : Leg) → self ≡ motion_of leg → result ≡ motion_of (steered leg) }
        ensures place { IsAtPlace self result }
    {
        if self.wanted_heading == self.heading {
            self
        } else if self.speed <= TURNING_SPEED {
            self.turned_to_wanted()
        } else {
            let braking = Motion {
                wanted_speed: 0,
                ..self
            };
            braking.with_steadiness()
        }
    }

    /// Changes the speed towards the wanted one, by as much as an update may.
    fn sped(self) -> Motion
        ensures leg { (leg : Leg) → self ≡ motion_of leg → result ≡ motion_of (sped leg) }
        ensures place { IsAtPlace self result }
    {
        let speed = approached(self.speed, self.wanted_speed);
        let sped = Motion {
            speed,
            step_east: sum_step(speed, cosine_at(self.heading)),
            step_north: sum_step(speed, sine_at(self.heading)),
            ..self
        };
        sped.with_steadiness()
    }

    /// Reports whether the robot turns in the next update, and keeps its speed.
    fn only_turns(&self) -> bool
        ensures { result ≡ true → OnlyTurns self.now }
    {
        self.wanted_heading != self.heading
            && self.speed <= TURNING_SPEED
            && self.speed == self.wanted_speed
    }

    /// Turns and changes the speed, as far as the robot can in an update. A robot that only turns is steady then. This
    /// is rare, so it isn't inlined into driving on, which each update does.
    #[inline(never)]
    fn adjust(&mut self)
        ensures leg { (leg : Leg) → self.old ≡ motion_of leg → self.new ≡ motion_of (sped (steered leg)) }
        ensures place { IsAtPlace self.old self.new }
    {
        if self.only_turns() {
            *self = self.turned_to_wanted();
            return;
        }
        *self = self.steered().sped();
    }

    /// Stops at a place, which is the origin of a new leg with the same heading.
    fn stopped_at(self, place: Point) -> Motion
        ensures leg { (leg : Leg) → self ≡ motion_of leg → result ≡ motion_of (record leg {
          origin_x = place.x;
          origin_y = place.y;
          distance = 0;
          speed = 0;
          wanted_speed = 0;
        }) }
        ensures place { (result.x ≡ place.x) × (result.y ≡ place.y) }
    {
        let still = Motion {
            speed: 0,
            wanted_speed: 0,
            ..self
        };
        still.on_new_leg(place)
    }

    /// Stops at a wall: at the place of the field that is nearest to where these sums lead. This is rare, so it isn't
    /// inlined either.
    #[inline(never)]
    fn stop_near(&mut self, east: i32, north: i32)
        ensures leg { (leg : Leg) → self.old ≡ motion_of leg → self.new ≡ motion_of (record leg {
          origin_x = clamped_place_of east;
          origin_y = clamped_place_of north;
          distance = 0;
          speed = 0;
          wanted_speed = 0;
        }) }
        ensures place { (self.new.x ≡ clamped_place_of east) × (self.new.y ≡ clamped_place_of north) }
    {
        *self = self.stopped_at(Point::new(clamped_place_of(east), clamped_place_of(north)));
    }

    /// Drives on for an update at the present speed, up to a wall, and reports whether one stopped it.
    #[inline(always)]
    fn drive_straight(&mut self) -> bool
        ensures motion { (leg : Leg) → self.old ≡ motion_of leg → self.new ≡ motion_of (clamped_at_walls (travelled leg)) }
        ensures walled { (leg : Leg) → self.old ≡ motion_of leg → result ≡ hits_wall (travelled leg) }
        ensures nearby { IsNearby self.old self.new }
    {
        let east = self.east + self.step_east;
        let north = self.north + self.step_north;
        if leads_beyond(east, north) {
            self.stop_near(east, north);
            return true;
        }
        self.east = east;
        self.north = north;
        false
    }

    /// Moves on for an update, as far as walls let it: turns, changes the speed and drives on. Reports whether a wall
    /// stopped it.
    #[tactic(auto, unfolding(crate::specs::Leg::stopped_by_walls, crate::specs::Leg::tried))]
    #[inline(always)]
    pub fn move_within_walls(&mut self) -> bool
        ensures motion { (leg : Leg) → self.old ≡ motion_of leg → self.new ≡ motion_of (stopped_by_walls leg) }
        ensures walled { (leg : Leg) → self.old ≡ motion_of leg → result ≡ hits_wall (tried leg) }
        ensures nearby { IsNearby self.old self.new }
    {
        if !self.steady {
            self.adjust();
        }
        self.drive_straight()
    }

    /// Returns the motion after a collision: the robot stops where it was before the update.
    #[tactic(auto, unfolding(crate::specs::Moved::put_back))]
    pub fn put_back(self, place: Point) -> Motion
        ensures { (old leg : Leg) → place.x ≡ place_x old → place.y ≡ place_y old → self ≡ motion_of leg
            → result ≡ motion_of (put_back old leg) }
    {
        self.stopped_at(place)
    }
}

/// Reports whether a robot wants the heading and the speed that it has.
#[tactic(auto, unfolding(crate::specs::Arena::is_steady))]
fn is_steady(heading: u16, wanted_heading: u16, speed: u8, wanted_speed: u8) -> bool
    ensures { result ≡ is_steady heading wanted_heading speed wanted_speed }
{
    wanted_heading == heading && speed == wanted_speed
}

/// Returns the speed after an update, towards the wanted one.
#[tactic(auto, using(std::proofs::lemmas::Bool::Decides::nat_tests), unfolding(crate::specs::Leg::approached))]
fn approached(speed: u8, wanted: u8) -> u8
    requires speed { speed ≤ MOST_SPEED }
    requires wanted { wanted ≤ MOST_SPEED }
    ensures value { result ≡ approached speed wanted }
    ensures most { result ≤ MOST_SPEED }
{
    if speed < wanted {
        wanted.min(speed + ACCELERATION)
    } else {
        wanted.max(speed.saturating_sub(ACCELERATION))
    }
}
