//! Fields with known outcomes, through the calls of an arena.

ghost use Rattle.std.specs.Prelude.{◌≡◌, ◌+◌, ◌<◌, ◌≤◌, length};
ghost use Rattle.arena.specs.Arena.{most_updates};

use arena::{Arena, LAST_PLACE, MOST_ROBOTS};
use arrayvec::ArrayVec;
use grammar::Intrinsic;
use std::process::Abort;

mod number_tests;
mod plain;

/// Places robots, at places in tenths of a metre.
pub fn arena_of(places: &[(u16, u16)]) -> Arena
    requires some { 2 ≤ length places.now }
    requires most { length places.now ≤ MOST_ROBOTS }
    ensures updates { result.updates ≡ 0 }
    ensures manned { length result.robots ≡ length places.now }
{
    let mut list = ArrayVec::new();
    for &(x, y) in places {
        list.push((i32::from(x.min(LAST_PLACE)), i32::from(y.min(LAST_PLACE))));
    }
    Arena::placed(1, 1, &list)
}

/// Asks for a live robot.
pub fn reply(
    rt: &impl Abort,
    arena: &mut Arena,
    robot: usize,
    intrinsic: Intrinsic,
    arguments: [i32; 2],
) -> i32
    requires { robot < length arena.old.robots }
    ensures updates { arena.new.updates ≡ arena.old.updates }
    ensures manned { length arena.new.robots ≡ length arena.old.robots }
{
    assert!(rt; arena.alive(robot));
    arena.ask(robot, intrinsic, arguments)
}

/// Does some updates.
pub fn pass(arena: &mut Arena, updates: u32)
    requires { arena.old.updates + updates ≤ most_updates }
    ensures updates { arena.new.updates ≡ arena.old.updates + updates }
    ensures manned { length arena.new.robots ≡ length arena.old.robots }
{
    for _update in 0..updates {
        arena.update();
    }
}

#[test]
fn scans(rt: HostRuntime) {
    let table = [
        (6000, 4910, 365, 10, 100),
        (6000, 5290, 365, 10, 0),
        (6000, 4910, 355, -3, 100),
        (6000, 5290, 355, -3, 0),
        (5009, 5009, 123, 0, 1),
    ];
    for (x, y, degree, resolution, want) in table {
        let mut arena = arena_of(&[(5000, 5000), (x, y)]);
        let range = reply(&rt, &mut arena, 0, Intrinsic::Scan, [degree, resolution]);
        assert_eq!(rt; range, want, "scan({degree}, {resolution}) of ({x}, {y})");
    }
}

#[test]
fn starts_in_quadrants(rt: HostRuntime) {
    let mut arena = Arena::new(42, 54, 2);
    assert_eq!(rt; arena.place(0), (8097, 6824));
    assert_eq!(rt; arena.place(1), (1955, 1955));
    assert_eq!(rt; reply(&rt, &mut arena, 0, Intrinsic::Rand, [100, 0]), 66);
    assert_eq!(rt; arena.live_count(), 2);
}

#[test]
fn drives_and_turns(rt: HostRuntime) {
    let mut arena = arena_of(&[(5000, 5000), (1000, 1000)]);
    assert_eq!(rt; reply(&rt, &mut arena, 0, Intrinsic::Drive, [0, 100]), 1);
    pass(&mut arena, 6);
    assert_eq!(rt; arena.place(0), (5210, 5000));
    assert_eq!(rt; reply(&rt, &mut arena, 0, Intrinsic::Speed, [0, 0]), 60);
    assert_eq!(rt; reply(&rt, &mut arena, 0, Intrinsic::Drive, [90, 100]), 1);
    stops_at(
        &rt,
        &mut arena,
        &[(5260, 5000, 50), (5260, 5040, 40), (5260, 5070, 30)],
    );
    stops_at(
        &rt,
        &mut arena,
        &[(5260, 5090, 20), (5260, 5100, 10), (5260, 5100, 0)],
    );
}

/// Checks that robot 0 is at these places with these speeds after the next updates.
fn stops_at(rt: &impl Abort, arena: &mut Arena, stops: &[(u16, u16, i32)])
    requires two { 0 < length arena.old.robots }
    requires updates { arena.old.updates + length stops.now ≤ most_updates }
    ensures updates { arena.new.updates ≡ arena.old.updates + length stops.now }
    ensures manned { length arena.new.robots ≡ length arena.old.robots }
{
    for &(x, y, speed) in stops {
        arena.update();
        assert_eq!(rt; arena.place(0), (x, y));
        assert_eq!(rt; reply(rt, arena, 0, Intrinsic::Speed, [0, 0]), speed);
    }
}

#[test]
fn collides(rt: HostRuntime) {
    let mut arena = arena_of(&[(5000, 5000), (5015, 5000)]);
    assert_eq!(rt; reply(&rt, &mut arena, 0, Intrinsic::Drive, [0, 100]), 1);
    arena.update();
    assert_eq!(rt; (arena.damage(0), arena.damage(1)), (2, 2));
    assert_eq!(rt;
        (arena.place(0), arena.place(1)),
        ((5000, 5000), (5015, 5000))
    );
    assert_eq!(rt; reply(&rt, &mut arena, 0, Intrinsic::Speed, [0, 0]), 0);
}

#[test]
fn collides_with_two(rt: HostRuntime) {
    let mut arena = arena_of(&[(5000, 5000), (5015, 5000), (5018, 5000)]);
    assert_eq!(rt; reply(&rt, &mut arena, 0, Intrinsic::Drive, [0, 100]), 1);
    arena.update();
    assert_eq!(rt;
        (arena.damage(0), arena.damage(1), arena.damage(2)),
        (4, 2, 2)
    );
    assert_eq!(rt;
        (arena.place(0), arena.place(1)),
        ((5000, 5000), (5015, 5000))
    );
    assert_eq!(rt; arena.place(2), (5018, 5000));
}

#[test]
fn stops_at_a_wall(rt: HostRuntime) {
    let mut arena = arena_of(&[(9995, 5000), (1000, 1000)]);
    assert_eq!(rt; reply(&rt, &mut arena, 0, Intrinsic::Drive, [0, 100]), 1);
    arena.update();
    assert_eq!(rt; (arena.place(0), arena.damage(0)), ((9999, 5000), 2));
    assert_eq!(rt; reply(&rt, &mut arena, 0, Intrinsic::Speed, [0, 0]), 0);
    assert_eq!(rt; reply(&rt, &mut arena, 0, Intrinsic::LocX, [0, 0]), 999);
}

#[test]
fn hurts_by_rings(rt: HostRuntime) {
    let rings: [(u8, &[(u16, u16)]); 4] = [
        (10, &[(2050, 1000), (2030, 1040)]),
        (5, &[(2051, 1000), (2036, 1036), (2200, 1000)]),
        (3, &[(2201, 1000), (2400, 1000)]),
        (0, &[(2401, 1000)]),
    ];
    for (want, places) in rings {
        for (x, y) in places {
            let mut arena = arena_of(&[(1000, 1000), (*x, *y)]);
            assert_eq!(rt; reply(&rt, &mut arena, 0, Intrinsic::Cannon, [0, 100]), 1);
            arena.update();
            assert_eq!(rt; arena.damage(1), 0);
            arena.update();
            assert_eq!(rt; arena.damage(1), want, "at ({x}, {y})");
        }
    }
}

#[test]
fn fires_two_at_once(rt: HostRuntime) {
    let mut arena = arena_of(&[(1000, 1000), (9000, 9000)]);
    for want in [1, 1, 0] {
        assert_eq!(rt;
            reply(&rt, &mut arena, 0, Intrinsic::Cannon, [0, 500]),
            want
        );
    }
    pass(&mut arena, 9);
    assert_eq!(rt; reply(&rt, &mut arena, 0, Intrinsic::Cannon, [0, 500]), 0);
    arena.update();
    assert_eq!(rt; reply(&rt, &mut arena, 0, Intrinsic::Cannon, [0, 500]), 1);
}

#[test]
fn aims_no_further_than_the_wall(rt: HostRuntime) {
    let mut arena = arena_of(&[(1000, 1000), (30, 1000)]);
    assert_eq!(rt; reply(&rt, &mut arena, 0, Intrinsic::Cannon, [180, 900]), 1);
    pass(&mut arena, 13);
    assert_eq!(rt; (arena.damage(0), arena.damage(1)), (0, 0));
    arena.update();
    assert_eq!(rt; (arena.damage(0), arena.damage(1)), (0, 10));
}

#[test]
fn hurts_itself_and_outlives_its_owner(rt: HostRuntime) {
    let mut arena = arena_of(&[(1000, 1000), (2500, 1000)]);
    for _round in 0..4u32 {
        assert_eq!(rt; reply(&rt, &mut arena, 0, Intrinsic::Cannon, [0, 0]), 1);
        assert_eq!(rt; reply(&rt, &mut arena, 0, Intrinsic::Cannon, [0, 0]), 1);
        arena.update();
    }
    assert_eq!(rt; reply(&rt, &mut arena, 0, Intrinsic::Damage, [0, 0]), 80);
    assert_eq!(rt; reply(&rt, &mut arena, 0, Intrinsic::Cannon, [0, 150]), 1);
    assert_eq!(rt; reply(&rt, &mut arena, 0, Intrinsic::Cannon, [0, 0]), 1);
    arena.update();
    assert_eq!(rt; arena.damage(0), 90);
    assert_eq!(rt; reply(&rt, &mut arena, 0, Intrinsic::Cannon, [0, 0]), 1);
    arena.update();
    assert_eq!(rt; (arena.damage(0), arena.damage(1)), (100, 0));
    assert!(rt; !arena.alive(0) && arena.live_count() == 1);
    arena.update();
    assert_eq!(rt; (arena.damage(0), arena.damage(1)), (100, 10));
}

#[test]
fn foretells_walls_and_collisions(rt: HostRuntime) {
    let mut arena = arena_of(&[(9995, 5000), (1000, 1000), (1015, 1000), (1018, 1000)]);
    assert_eq!(rt; reply(&rt, &mut arena, 0, Intrinsic::Drive, [0, 100]), 1);
    assert_eq!(rt; reply(&rt, &mut arena, 1, Intrinsic::Drive, [0, 100]), 1);
    assert_eq!(rt; arena.robot_count(), 4);
    assert!(rt; arena.meets_wall(0) && !arena.meets_wall(1));
    assert!(rt; arena.meets(1, 2) && arena.meets(2, 1) && arena.meets(1, 3));
    assert!(rt; !arena.meets(2, 3) && !arena.meets(1, 1) && !arena.meets(0, 1));
    arena.update();
    assert_eq!(rt; (arena.damage(0), arena.damage(1)), (2, 4));
    assert_eq!(rt; (arena.damage(2), arena.damage(3)), (2, 2));
    assert!(rt; !arena.meets_wall(0) && !arena.meets(1, 2));
}

#[test]
fn foretells_bursts(rt: HostRuntime) {
    let mut arena = arena_of(&[(1000, 1000), (2045, 1000)]);
    assert_eq!(rt; reply(&rt, &mut arena, 0, Intrinsic::Cannon, [0, 100]), 1);
    assert_eq!(rt; reply(&rt, &mut arena, 1, Intrinsic::Drive, [90, 100]), 1);
    assert!(rt; arena.due().is_empty());
    arena.update();
    assert_eq!(rt; (arena.heading(1), arena.speed(1)), (90, 10));
    assert_eq!(rt; arena.due().len(), 1);
    for burst in arena.due().as_slice() {
        assert_eq!(rt; (burst.robot(), burst.x(), burst.y()), (0, 2000, 1000));
        assert_eq!(rt; arena.taken_by(0, burst), 0);
        assert_eq!(rt; arena.taken_by(1, burst), 5, "at (2045, 1030)");
    }
    arena.update();
    assert_eq!(rt; (arena.damage(0), arena.damage(1)), (0, 5));
    assert!(rt; arena.due().is_empty());
}
