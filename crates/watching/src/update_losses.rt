//! What the next update takes from a robot, and by what.

ghost use Rattle.std.specs.Prelude.{◌≡◌, ◌<◌, ◌≤◌, ◌∷◌, [], length, map};
ghost use Rattle.arena.specs.Field.{Field};
ghost use Rattle.arena.specs.Outlook.{due};
ghost use Rattle.arena.specs.Representing.{RepresentsField};
ghost use Rattle.watching.specs.Losses.{Collects, LossesAddUp, hurt, hurts, knock_losses, knocks, losses_of, wall_losses};

use arena::laws::damage_adds_up;
use arena::{Arena, Burst, DEADLY, KNOCK_DAMAGE, MOST_BURSTS, MOST_ROBOTS, WALL_DAMAGE};
use arrayvec::ArrayVec;

/// The most losses of a robot in an update: by the wall, by each robot, by each burst.
pub const MOST_LOSSES: usize = 1 + MOST_ROBOTS + MOST_BURSTS;

/// What takes damage from a robot.
#[derive(Clone, Copy, Drop)]
pub enum Source {
    /// A wall.
    Wall,
    /// A collision with the robot of this number, from 0.
    Collision(usize),
    /// A shot of the robot of this number, from 0, and the place of its burst in tenths of a metre.
    Shot(usize, u16, u16),
}

/// What is taken from a robot, in percent, and by what.
#[derive(Clone, Copy, Drop)]
pub struct Loss {
    /// What takes it.
    pub source: Source,
    /// How much, in percent.
    pub percent: u8,
}

impl Default for Loss {
    fn default() -> Loss {
        Loss {
            source: Source::Wall,
            percent: 0,
        }
    }
}

/// Returns what the next update takes from a live robot: by the wall, by other robots, by bursts, in this order. Of
/// what would take more than the robot has left, only that counts. The percents add up to what its damage grows by.
pub fn losses(arena: &Arena, robot: usize) -> ArrayVec<Loss, MOST_LOSSES>
    requires { robot < length arena.now.robots }
    ensures parts { (f : Field) → RepresentsField arena.now f → length f.robots ≤ MOST_ROBOTS
        → result.items ≡ losses_of f robot }
    ensures add_up { (f : Field) → RepresentsField arena.now f → length f.robots ≤ MOST_ROBOTS
        → LossesAddUp f robot result.items }
{
    damage_adds_up(arena);
    let mut found = Collector::new(DEADLY - arena.damage(robot));
    found.add_walls(arena, robot);
    found.add_knocks(arena, robot);
    found.add_hurts(arena, robot);
    found.all
}

/// The losses of a robot, and what it has left, in percent.
#[derive(Drop)]
struct Collector {
    left: u8,
    all: ArrayVec<Loss, MOST_LOSSES>,
}

impl Collector {
    /// Makes an empty list of losses of a robot that can still lose this much.
    fn new(left: u8) -> Collector
        ensures left { result.left ≡ left }
        ensures none { result.all.items ≡ [] }
    {
        Collector {
            left,
            all: ArrayVec::new(),
        }
    }

    /// Adds what a source takes, as far as it is left. Nothing is added if nothing is taken.
    fn add(&mut self, source: Source, percent: u8)
        ensures { Collects self.old (record { source = source; percent = percent } ∷ []) self.new }
    {
        let taken = percent.min(self.left);
        self.left -= taken;
        if taken > 0 {
            let _ = self.all.try_push(Loss {
                source,
                percent: taken,
            });
        }
    }

    /// Adds what a wall takes that a robot meets.
    fn add_walls(&mut self, arena: &Arena, robot: usize)
        requires { robot < length arena.now.robots }
        ensures { (f : Field) → RepresentsField arena.now f → Collects self.old (wall_losses f robot) self.new }
    {
        if arena.meets_wall(robot) {
            self.add(Source::Wall, WALL_DAMAGE);
        }
    }

    /// Adds what other robots take that a robot meets.
    fn add_knocks(&mut self, arena: &Arena, robot: usize)
        requires { robot < length arena.now.robots }
        ensures { (f : Field) → RepresentsField arena.now f → Collects self.old (knocks f robot) self.new }
    {
        for other in 0..arena.robot_count() {
            self.add_knock(arena, robot, other);
        }
    }

    /// Adds what another robot takes if a robot meets it.
    fn add_knock(&mut self, arena: &Arena, robot: usize, other: usize)
        requires robot { robot < length arena.now.robots }
        requires other { other < length arena.now.robots }
        ensures { (f : Field) → RepresentsField arena.now f → Collects self.old (knock_losses f robot other) self.new }
    {
        if arena.meets(robot, other) {
            self.add(Source::Collision(other), KNOCK_DAMAGE);
        }
    }

    /// Adds what bursts take from a robot.
    fn add_hurts(&mut self, arena: &Arena, robot: usize)
        requires { robot < length arena.now.robots }
        ensures hurts { (f : Field) → RepresentsField arena.now f → Collects self.old (hurts f robot) self.new }
        ensures few { (f : Field) → RepresentsField arena.now f → length (due f) ≤ MOST_BURSTS }
    {
        self.add_bursts(arena, robot, arena.due().as_slice());
    }

    /// Adds what these bursts take from a robot.
    fn add_bursts(&mut self, arena: &Arena, robot: usize, bursts: &[Burst])
        requires { robot < length arena.now.robots }
        ensures { (f : Field) → RepresentsField arena.now f
            → Collects self.old (map (hurt f robot) bursts.now) self.new }
    {
        for burst in bursts {
            self.add_burst(arena, robot, burst);
        }
    }

    /// Adds what a burst takes from a robot.
    fn add_burst(&mut self, arena: &Arena, robot: usize, burst: &Burst)
        requires { robot < length arena.now.robots }
        ensures { (f : Field) → RepresentsField arena.now f → Collects self.old (hurt f robot burst.now ∷ []) self.new }
    {
        let source = Source::Shot(burst.robot(), burst.x(), burst.y());
        self.add(source, arena.taken_by(robot, burst));
    }
}
