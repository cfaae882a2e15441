//! Runs: pieces of a robot's way that are straight, at constant speed. Of each run a film has its two ends alone.

ghost use Rattle.std.specs.Prelude.{◌≡◌, ◌<◌, Some, None, true, false, length, if◌then◌else◌};
ghost use Rattle.arena.specs.Field.{Field, robot_at};
ghost use Rattle.arena.specs.Representing.{RepresentsField};
ghost use Rattle.watching.specs.Runs.{end_of, is_alike, is_even, is_even_to, news_of, run_after, stance_of, way_kept, way_of};

use arena::Arena;

/// What a film has of a robot after an update.
#[derive(Clone, Copy, Drop)]
pub struct Stance {
    /// The cycle of the update, 0 at the start.
    pub cycle: u32,
    /// The place to the east, in tenths of a metre.
    pub x: u16,
    /// The place to the north, in tenths of a metre.
    pub y: u16,
    /// The heading, in degrees.
    pub heading: u16,
    /// The speed, in percent.
    pub speed: u8,
    /// The damage, in percent.
    pub damage: u8,
}

impl Stance {
    /// Returns how a robot is after the update of a cycle.
    pub fn of(cycle: u32, robot: usize, arena: &Arena) -> Stance
        requires { robot < length arena.now.robots }
        ensures cycle { result.cycle ≡ cycle }
        ensures stands { (f : Field) → RepresentsField arena.now f → result ≡ stance_of cycle (robot_at f robot) }
    {
        let (x, y) = arena.place(robot);
        Stance {
            cycle,
            x,
            y,
            heading: arena.heading(robot),
            speed: arena.speed(robot),
            damage: arena.damage(robot),
        }
    }

    /// Reports whether all but the cycle and the place is the same.
    fn is_alike(&self, other: &Stance) -> bool
        ensures { result ≡ is_alike self.now other.now }
    {
        self.heading == other.heading && self.speed == other.speed && self.damage == other.damage
    }

    /// Returns the way from here to there.
    fn way_to(&self, there: &Stance) -> Displacement
        ensures { result ≡ way_of self.now there.now }
    {
        Displacement {
            east: i32::from(there.x) - i32::from(self.x),
            north: i32::from(there.y) - i32::from(self.y),
        }
    }
}

/// A way, east and north, in tenths of a metre.
#[derive(Clone, Copy, Drop)]
pub struct Displacement {
    /// To the east.
    pub east: i32,
    /// To the north.
    pub north: i32,
}

impl Displacement {
    /// Reports whether two ways of an update are the same but for the rounding of places.
    fn is_even(&self, other: &Displacement) -> bool
        ensures { result ≡ is_even self.now other.now }
    {
        self.east.abs_diff(other.east) <= 1 && self.north.abs_diff(other.north) <= 1
    }
}

/// The run that a robot is on.
#[derive(Clone, Copy, Default, Drop)]
pub struct Run {
    last: Option<Stance>,
    way: Option<Displacement>,
    is_told: bool,
}

/// The places that a film shows of a robot after an update: where the run before ended, and where the robot is.
#[derive(Clone, Copy, Default, Drop)]
pub struct News {
    /// The end of the run before, an update earlier.
    pub end: Option<Stance>,
    /// Where the robot is, if a new run begins there.
    pub begin: Option<Stance>,
}

impl Run {
    /// Makes a run without places.
    pub fn new() -> Run
        ensures { result ≡ record { last = None; way = None; is_told = false } }
    {
        Run {
            last: None,
            way: None,
            is_told: false,
        }
    }

    /// Goes on to where the robot is after the next update. Returns what the film shows of it: nothing while the robot
    /// goes on straight at constant speed, and its damage doesn't change.
    pub fn go_on(&mut self, stance: Stance) -> News
        ensures run { self.new ≡ run_after self.old stance }
        ensures news { result ≡ news_of self.old stance }
    {
        let last = self.last;
        match last {
            Some(last) if last.is_alike(&stance) => self.go_straight(&last, stance),
            _ => self.begin_anew(stance),
        }
    }

    /// Goes on to a place with the same heading, speed and damage: another run begins at the last one if the way is
    /// not as before.
    fn go_straight(&mut self, last: &Stance, stance: Stance) -> News
        ensures run { self.new ≡ record {
          last = Some stance;
          way = Some (way_kept self.old.way (way_of last.now stance));
          is_told = false;
        } }
        ensures news { result ≡ record {
          end = if is_even_to self.old.way (way_of last.now stance) then None else end_of self.old;
          begin = None;
        } }
    {
        let way = last.way_to(&stance);
        let before = self.way;
        let (end, way) = match before {
            Some(before) if before.is_even(&way) => (None, before),
            Some(_) => (self.end(), way),
            None => (None, way),
        };
        self.last = Some(stance);
        self.way = Some(way);
        self.is_told = false;
        News { end, begin: None }
    }

    /// Ends the run, and begins another one here.
    fn begin_anew(&mut self, stance: Stance) -> News
        ensures run { self.new ≡ record { last = Some stance; way = None; is_told = true } }
        ensures news { result ≡ record { end = end_of self.old; begin = Some stance } }
    {
        let end = self.end();
        self.last = Some(stance);
        self.way = None;
        self.is_told = true;
        News {
            end,
            begin: Some(stance),
        }
    }

    /// Returns where the run ends so far, if the film doesn't have it yet.
    pub fn end(&self) -> Option<Stance>
        ensures { result ≡ end_of self.now }
    {
        if self.is_told { None } else { self.last }
    }
}
