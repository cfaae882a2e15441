//! A plain model of the field: legs with their distance, every shot that was fired, and all damage.

ghost use Rattle.std.specs.Prelude.{◌≡◌, ◌+◌, ◌<◌, ◌≤◌, length};

use super::{arena_of, reply};
use arena::Arena;
use arith::{cos, sin};
use arrayvec::ArrayVec;
use grammar::Intrinsic;
use std::process::Abort;

/// A robot: its leg, and the sum of all that hurt it.
#[derive(Clone, Copy, Default)]
struct PlainRobot {
    origin_x: i64,
    origin_y: i64,
    heading: i32,
    distance: i64,
    speed: i64,
    wanted_heading: i32,
    wanted_speed: i64,
    hurts: i64,
}

impl PlainRobot {
    fn is_alive(&self) -> bool {
        self.hurts < 100
    }

    fn damage(&self) -> i64 {
        self.hurts.min(100)
    }

    fn candidate(&self) -> (i64, i64) {
        (
            along(self.origin_x, self.distance, cos(self.heading)),
            along(self.origin_y, self.distance, sin(self.heading)),
        )
    }

    fn place(&self) -> (i64, i64) {
        let (x, y) = self.candidate();
        (x.clamp(0, 9999), y.clamp(0, 9999))
    }

    /// Begins a new leg at the present place.
    fn starting(self) -> PlainRobot {
        let (origin_x, origin_y) = self.place();
        PlainRobot {
            origin_x,
            origin_y,
            distance: 0,
            ..self
        }
    }

    /// Returns it as it tried to move, or put back where it is if it touched others.
    fn moved(self, tried: PlainRobot, touched: i64) -> PlainRobot {
        if touched == 0 {
            return tried;
        }
        let (origin_x, origin_y) = self.place();
        let hurts = tried.hurts.wrapping_add(touched.wrapping_mul(2));
        PlainRobot {
            origin_x,
            origin_y,
            distance: 0,
            speed: 0,
            wanted_speed: 0,
            hurts,
            ..tried
        }
    }

    /// Stops at the present place, hurt by so much more.
    fn resting(self, hurt: i64) -> PlainRobot {
        PlainRobot {
            speed: 0,
            wanted_speed: 0,
            hurts: self.hurts.wrapping_add(hurt),
            ..self.starting()
        }
    }

    fn steered(self) -> PlainRobot {
        if self.wanted_heading == self.heading {
            self
        } else if self.speed <= 50 {
            PlainRobot {
                heading: self.wanted_heading,
                ..self.starting()
            }
        } else {
            PlainRobot {
                wanted_speed: 0,
                ..self
            }
        }
    }

    fn sped(self) -> PlainRobot {
        let change = self.wanted_speed.wrapping_sub(self.speed).clamp(-10, 10);
        PlainRobot {
            speed: self.speed.wrapping_add(change),
            ..self
        }
    }

    /// Moves on by heading, speed, distance and walls, as if there were no other robots.
    fn tried(self) -> PlainRobot {
        if !self.is_alive() {
            return self;
        }
        let moved = self.steered().sped();
        let moved = PlainRobot {
            distance: moved.distance.wrapping_add(moved.speed),
            ..moved
        };
        if moved.candidate() == moved.place() {
            moved
        } else {
            moved.resting(2)
        }
    }
}

/// Returns a coordinate at a distance in tenths from an origin, by the part of the distance that lies on the axis.
fn along(origin: i64, distance: i64, part: i32) -> i64 {
    origin.wrapping_add(distance.wrapping_mul(i64::from(part)) / 100_000)
}

fn square(a: (i64, i64), b: (i64, i64)) -> i64 {
    let x = a.0.wrapping_sub(b.0);
    let y = a.1.wrapping_sub(b.1);
    x.wrapping_mul(x).wrapping_add(y.wrapping_mul(y))
}

/// A shot: who fired it, the update in which it bursts, and where.
#[derive(Clone, Copy, Default)]
struct Shot {
    owner: usize,
    burst: i64,
    point: (i64, i64),
}

/// Four robots, of which those that don't play are dead.
#[derive(Drop)]
struct Field {
    robots: [PlainRobot; 4],
    shots: ArrayVec<Shot, 1024>,
    updates: i64,
}

impl Field {
    fn of(places: &[(u16, u16)]) -> Field {
        let mut robots = [PlainRobot {
            hurts: 100,
            ..PlainRobot::default()
        }; 4];
        for (robot, &(x, y)) in robots.iter_mut().zip(places) {
            *robot = PlainRobot {
                origin_x: i64::from(x),
                origin_y: i64::from(y),
                ..PlainRobot::default()
            };
        }
        Field {
            robots,
            shots: ArrayVec::new(),
            updates: 0,
        }
    }

    fn drive(&mut self, robot: usize, degree: i32, speed: i32)
        requires { robot < 4 }
    {
        self.robots[robot].wanted_heading = degree;
        self.robots[robot].wanted_speed = i64::from(speed);
    }

    fn cannon(&mut self, owner: usize, degree: i32, range: i32) -> i32
        requires { owner < 4 }
    {
        let updates = self.updates;
        if self
            .shots
            .iter()
            .filter(|s| s.owner == owner && s.burst > updates)
            .count()
            >= 2
        {
            return 0;
        }
        let (x, y) = self.robots[owner].place();
        let way = i64::from(range).wrapping_mul(10);
        let flight = (i64::from(range).wrapping_add(49) / 50).max(1);
        let point = (
            along(x, way, cos(degree)).clamp(0, 9999),
            along(y, way, sin(degree)).clamp(0, 9999),
        );
        let _ = self.shots.try_push(Shot {
            owner,
            burst: updates.wrapping_add(flight),
            point,
        });
        1
    }

    fn update(&mut self) {
        let before = self.robots;
        let mut tries = before;
        for robot in &mut tries {
            *robot = robot.tried();
        }
        self.updates = self.updates.wrapping_add(1);
        for i in 0..4 {
            let moved = before[i].moved(tries[i], touches(&before, &tries, i));
            let hurts = moved.hurts.wrapping_add(self.burst_at(moved.place()));
            self.robots[i] = PlainRobot { hurts, ..moved };
        }
    }

    fn live_count(&self) -> usize {
        self.robots.iter().filter(|robot| robot.is_alive()).count()
    }

    /// Returns the damage that the bursts of this update do at a place.
    fn burst_at(&self, place: (i64, i64)) -> i64 {
        let mut damage = 0i64;
        for shot in self.shots.as_slice() {
            if shot.burst == self.updates {
                damage = damage.wrapping_add(ring(square(place, shot.point)));
            }
        }
        damage
    }
}

fn ring(square: i64) -> i64 {
    match square {
        0..=2500 => 10,
        2501..=40000 => 5,
        40001..=160000 => 3,
        _ => 0,
    }
}

/// Returns how many others a robot collides with.
fn touches(before: &[PlainRobot; 4], tries: &[PlainRobot; 4], i: usize) -> i64
    requires { i < 4 }
{
    let mut touched = 0i64;
    for j in 0..4 {
        if i != j && collide((before[i], tries[i]), (before[j], tries[j])) {
            touched = touched.wrapping_add(1);
        }
    }
    touched
}

/// Reports whether two robots collide, each given as it was and as it would be.
fn collide(a: (PlainRobot, PlainRobot), b: (PlainRobot, PlainRobot)) -> bool {
    let old = (a.0.place(), b.0.place());
    let new = (a.1.place(), b.1.place());
    let near_x = new.0.0.wrapping_sub(new.1.0).wrapping_abs() < 10;
    let near_y = new.0.1.wrapping_sub(new.1.1).wrapping_abs() < 10;
    a.0.is_alive()
        && b.0.is_alive()
        && near_x
        && near_y
        && old != new
        && square(new.0, new.1) <= square(old.0, old.1)
}

/// Numbers that have nothing to do with the arena's generator.
#[derive(Drop)]
struct Dice(u64);

impl Dice {
    /// Returns a number below the limit.
    fn roll(&mut self, limit: u16) -> u16
        requires { 0 < limit }
    {
        self.0 = self
            .0
            .wrapping_mul(6364136223846793005)
            .wrapping_add(1442695040888963407);
        (self.0 >> 48) as u16 % limit
    }

    fn place(&mut self, width: u16) -> (u16, u16)
        requires { 0 < width }
    {
        let x = self.roll(width);
        let y = self.roll(width);
        (4000u16.wrapping_add(x), 4000u16.wrapping_add(y))
    }
}

/// Plays an arena and its plain model side by side for some updates, robots within a given number of tenths.
fn play(rt: &impl Abort, places: &[(u16, u16)], updates: u32, dice: &mut Dice)
    requires some { 2 ≤ length places.now }
    requires most { length places.now ≤ 4 }
    requires updates { updates ≤ 1000 }
{
    let mut arena = arena_of(places);
    let mut field = Field::of(places);
    for _update in 0..updates {
        for robot in 0..places.len() {
            ask(rt, &mut arena, &mut field, robot, dice);
        }
        arena.update();
        field.update();
        for robot in 0..places.len() {
            agree(rt, &arena, &field, robot);
        }
        assert_eq!(rt; arena.live_count(), field.live_count());
    }
}

/// Lets a live robot drive now and then, and fire.
fn ask(rt: &impl Abort, arena: &mut Arena, field: &mut Field, robot: usize, dice: &mut Dice)
    requires robot { robot < length arena.old.robots }
    requires four { robot < 4 }
    ensures updates { arena.new.updates ≡ arena.old.updates }
    ensures manned { length arena.new.robots ≡ length arena.old.robots }
{
    if !arena.alive(robot) {
        return;
    }
    if dice.roll(8) == 0 {
        let (degree, speed) = (i32::from(dice.roll(360)), i32::from(dice.roll(101)));
        assert_eq!(rt;
            reply(rt, arena, robot, Intrinsic::Drive, [degree, speed]),
            1
        );
        field.drive(robot, degree, speed);
    }
    let (degree, range) = (i32::from(dice.roll(360)), i32::from(dice.roll(400)));
    let fired = reply(rt, arena, robot, Intrinsic::Cannon, [degree, range]);
    assert_eq!(rt; fired, field.cannon(robot, degree, range));
}

fn agree(rt: &impl Abort, arena: &Arena, field: &Field, robot: usize)
    requires robot { robot < length arena.now.robots }
    requires four { robot < 4 }
{
    let (x, y) = arena.place(robot);
    let own = field.robots[robot];
    assert_eq!(rt;
        (i64::from(x), i64::from(y)),
        own.place(),
        "update {}",
        field.updates
    );
    assert_eq!(rt;
        i64::from(arena.damage(robot)),
        own.damage(),
        "update {}",
        field.updates
    );
    assert_eq!(rt; arena.alive(robot), own.is_alive());
}

#[test]
fn a_thousand_updates(rt: HostRuntime) {
    let mut dice = Dice(1);
    for width in [40, 400, 2000, 5900] {
        let four = [
            dice.place(width),
            dice.place(width),
            dice.place(width),
            dice.place(width),
        ];
        play(&rt, &four, 150, &mut dice);
        play(&rt, &four[..3], 100, &mut dice);
        play(&rt, &four[..2], 100, &mut dice);
    }
}
