//! Aims: at whom shots were aimed, and by how much their bursts missed.

ghost use Rattle.std.specs.Prelude.{◌<◌, ◌≤◌, length, unsigned_abs};
ghost use Rattle.arena.specs.declared.rules.TheConstants.{LAST_METRE};

use arena::{Arena, Burst, LAST_METRE, MOST_BURSTS, MOST_RANGE, MOST_ROBOTS, flight};
use arith::{bears_within, cosine_at, norm_degree, root, sine_at};
use arrayvec::ArrayVec;
use code::Intrinsic;
use watching::{Exchange, Turn};

/// The greatest resolution of a scan.
const MOST_RESOLUTION: u16 = 10;

/// Sines and cosines are scaled by this.
const SCALE: i64 = 100_000;

/// A robot that a scan saw, and the cycle of the scan.
#[derive(Clone, Copy, Drop)]
struct Sighting {
    robot: usize,
    cycle: u32,
}

/// A shot in the air: who fired it, when, in which direction and how far, and whom that robot saw last.
#[derive(Clone, Copy, Default, Drop)]
struct Shot {
    robot: usize,
    cycle: u32,
    /// The update in which it bursts.
    update: u32,
    /// The cosine of its direction, scaled.
    cosine: i32,
    /// The sine of its direction, scaled.
    sine: i32,
    range: u16,
    sighting: Option<Sighting>,
}

/// A shot that bursts in the update that is done: its target, what it takes from that, and the place of the burst.
#[derive(Clone, Copy, Default, Drop)]
struct Landing {
    shot: Shot,
    target: usize,
    percent: u8,
    place: (u16, u16),
}

/// By how much a burst missed its target. Lengths are in tenths of a metre, rounded down.
#[derive(Clone, Copy, Default, Drop)]
pub struct Miss {
    /// The number of the robot that fired, from 0.
    pub robot: usize,
    /// The number of the robot that was aimed at, from 0.
    pub target: usize,
    /// What the burst takes from that, in percent: 10, 5 or 3 by the ring, 0 outside.
    pub percent: u8,
    /// How far the burst is from it.
    pub distance: u32,
    /// How much too far the burst is, as seen from where the shot was fired: too near if it is negative.
    pub far: i32,
    /// How much too far to the left: to the right if it is negative.
    pub left: i32,
    /// The range that was asked for, in metres.
    pub range: u16,
    /// How many cycles before the shot the scan was that saw the target: none if none did.
    pub age: Option<u32>,
}

/// At whom the shots of a match were aimed.
#[derive(Drop)]
pub struct Aims {
    /// The updates that were done.
    updates: u32,
    /// Whom each robot saw last.
    sightings: [Option<Sighting>; MOST_ROBOTS],
    /// The shots in the air, in the order in which they were fired.
    shots: ArrayVec<Shot, MOST_BURSTS>,
    /// Those that burst in the update that is done.
    landings: ArrayVec<Landing, MOST_BURSTS>,
}

impl Aims {
    /// Makes the aims of a match that was not begun.
    pub fn new() -> Aims {
        Aims {
            updates: 0,
            sightings: [None; MOST_ROBOTS],
            shots: ArrayVec::new(),
            landings: ArrayVec::new(),
        }
    }

    /// Hears a question: whom a scan saw, or how a shot was fired.
    pub fn hear(&mut self, turn: Turn, question: &Exchange, arena: &Arena)
        requires { turn.robot < length arena.now.robots }
    {
        match question.intrinsic {
            Intrinsic::Scan if question.reply != 0 => self.see(turn, question, arena),
            Intrinsic::Cannon if question.reply != 0 => self.fire(turn, question),
            _ => {}
        }
    }

    /// Notes whom a scan saw.
    fn see(&mut self, turn: Turn, question: &Exchange, arena: &Arena)
        requires { turn.robot < length arena.now.robots }
    {
        if let Some(robot) = seen(arena, turn.robot, question)
            && let Some(sighting) = self.sightings.get_mut(turn.robot)
        {
            let cycle = turn.cycle;
            *sighting = Some(Sighting { robot, cycle });
        }
    }

    /// Notes a shot that was fired.
    fn fire(&mut self, turn: Turn, question: &Exchange) {
        let degree = norm_degree(question.arguments[0]);
        let range = range(question.arguments[1]);
        let _ = self.shots.try_push(Shot {
            robot: turn.robot,
            cycle: turn.cycle,
            update: self.updates.saturating_add(flight(range)),
            cosine: cosine_at(degree),
            sine: sine_at(degree),
            range,
            sighting: self.sightings.get(turn.robot).copied().unwrap_or(None),
        });
    }

    /// Chooses the targets of the shots that burst in the update that is about to be done.
    pub fn choose(&mut self, arena: &Arena) {
        self.updates = self.updates.saturating_add(1);
        self.landings.clear();
        for burst in &arena.due() {
            if let Some(shot) = self.landed(burst.robot())
                && let Some(target) = target_of(arena, &shot, burst)
                && target < arena.robot_count()
            {
                let _ = self.landings.try_push(Landing {
                    shot,
                    target,
                    percent: arena.taken_by(target, burst),
                    place: (burst.x(), burst.y()),
                });
            }
        }
    }

    /// Takes the first shot of a robot that bursts in this update.
    fn landed(&mut self, robot: usize) -> Option<Shot> {
        for at in 0..self.shots.len() {
            let shot = self.shots.get(at)?;
            if shot.robot == robot && shot.update == self.updates {
                return self.shots.pop_at(at);
            }
        }
        None
    }

    /// Returns by how much the bursts of the update that was done missed.
    pub fn misses(&self, arena: &Arena) -> ArrayVec<Miss, MOST_BURSTS> {
        let mut misses = ArrayVec::new();
        for landing in &self.landings {
            if landing.target < arena.robot_count() {
                let _ = misses.try_push(landing.miss(arena.place(landing.target)));
            }
        }
        misses
    }
}

impl Landing {
    /// Returns by how much the burst missed its target, which is at this place.
    fn miss(&self, place: (u16, u16)) -> Miss {
        let shot = &self.shot;
        let (east, north) = way(place, self.place);
        let (cosine, sine) = (i64::from(shot.cosine), i64::from(shot.sine));
        Miss {
            robot: shot.robot,
            target: self.target,
            percent: self.percent,
            distance: length(east, north),
            far: projection(east, cosine, north, sine),
            left: projection(north, cosine, east, sine.saturating_neg()),
            range: shot.range,
            age: shot.age_for(self.target),
        }
    }
}

impl Shot {
    /// Returns how many cycles before the shot its target was seen: none if it wasn't.
    fn age_for(&self, target: usize) -> Option<u32> {
        match self.sighting {
            Some(sighting) if sighting.robot == target => {
                Some(self.cycle.saturating_sub(sighting.cycle))
            }
            _ => None,
        }
    }
}

/// Returns the way from one place to another, to the east and to the north.
fn way(from: (u16, u16), to: (u16, u16)) -> (i64, i64) {
    let east = i64::from(to.0).saturating_sub(i64::from(from.0));
    let north = i64::from(to.1).saturating_sub(i64::from(from.1));
    (east, north)
}

/// Returns the length of a way, rounded down.
fn length(east: i64, north: i64) -> u32 {
    let square = east
        .saturating_mul(east)
        .saturating_add(north.saturating_mul(north));
    // a square of the field has fewer than 31 bits
    root(i32::try_from(square).unwrap_or(i32::MAX)).unsigned_abs()
}

/// Returns how far a way reaches in a direction, rounded to 0.
fn projection(east: i64, cosine: i64, north: i64, sine: i64) -> i32 {
    let scaled = east
        .saturating_mul(cosine)
        .saturating_add(north.saturating_mul(sine));
    i32::try_from(scaled / SCALE).unwrap_or(i32::MAX)
}

/// Returns the range of a shot in metres that is asked for.
#[tactic(auto, unfolding(arena::specs::Leg::clamped))]
fn range(asked: i32) -> u16
    ensures { result ≤ MOST_RANGE }
{
    asked.clamp(0, i32::from(MOST_RANGE)) as u16
}

/// Returns the robot that a shot was aimed at: the one that was seen last if it lives, else that which is nearest to
/// the burst.
fn target_of(arena: &Arena, shot: &Shot, burst: &Burst) -> Option<usize> {
    match shot.sighting {
        Some(sighting) if lives(arena, sighting.robot) => Some(sighting.robot),
        _ => nearest(arena, shot.robot, burst),
    }
}

/// Reports whether there is a robot of this number that lives.
fn lives(arena: &Arena, robot: usize) -> bool {
    robot < arena.robot_count() && arena.alive(robot)
}

/// Returns the live robot but one that is nearest to a burst.
fn nearest(arena: &Arena, but: usize, burst: &Burst) -> Option<usize> {
    let mut found = None;
    let mut least = u32::MAX;
    for robot in 0..arena.robot_count() {
        let (east, north) = way((burst.x(), burst.y()), arena.place(robot));
        let distance = length(east, north);
        if robot != but && arena.alive(robot) && distance < least {
            least = distance;
            found = Some(robot);
        }
    }
    found
}

/// Returns the robot that a scan saw.
fn seen(arena: &Arena, robot: usize, question: &Exchange) -> Option<usize>
    requires { robot < length arena.now.robots }
{
    let from = arena.place(robot);
    for other in 0..arena.robot_count() {
        if other != robot && arena.alive(other) && is_seen(from, arena.place(other), question) {
            return Some(other);
        }
    }
    None
}

/// Reports whether a scan from one place saw what is at another: that is in the arc, or where the scan is from, and at
/// the range that was the reply.
fn is_seen(from: (u16, u16), to: (u16, u16), question: &Exchange) -> bool {
    let (east, north) = (metres(from.0, to.0), metres(from.1, to.1));
    let degree = norm_degree(question.arguments[0]);
    let resolution = question.arguments[1].clamp(0, i32::from(MOST_RESOLUTION)) as u16;
    let range = length(i64::from(east), i64::from(north)).max(1);
    i64::from(range) == i64::from(question.reply)
        && (east == 0 && north == 0 || bears_within(east, north, degree, resolution))
}

/// Returns how far it is from one place on an axis to another, both in whole metres, rounded down.
fn metres(from: u16, to: u16) -> i32
    ensures { unsigned_abs result ≤ LAST_METRE }
{
    i32::from((to / 10).min(LAST_METRE)) - i32::from((from / 10).min(LAST_METRE))
}
