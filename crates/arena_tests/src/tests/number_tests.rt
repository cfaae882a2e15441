//! Values from the rules of the field, against what the calls give.

ghost use Rattle.std.specs.Prelude.{◌≤◌, ◌↔◌, unsigned_abs, IsTrue};

use arith::{MOST_DIFFERENCE, Op, atan, bearing, binop, cos, norm_degree, root, sin, tan};

const LEAST: i32 = i32::MIN;

const GREATEST: i32 = i32::MAX;

#[test]
fn operators(rt: HostRuntime) {
    let table = [
        (0, Op::Or, 5, 1),
        (0, Op::Or, 0, 0),
        (3, Op::And, 4, 1),
        (0, Op::And, 4, 0),
        (3, Op::And, 0, 0),
        (12, Op::BitOr, 10, 14),
        (12, Op::BitXor, 10, 6),
        (-1, Op::BitXor, 5, -6),
        (12, Op::BitAnd, 10, 8),
        (-1, Op::BitAnd, 7, 7),
        (3, Op::Equal, 3, 1),
        (3, Op::NotEqual, 3, 0),
        (-1, Op::Less, 1, 1),
        (1, Op::Less, 1, 0),
        (-1, Op::Greater, -2, 1),
        (1, Op::LessOrEqual, 1, 1),
        (-2, Op::GreaterOrEqual, -1, 0),
        (1, Op::ShiftLeft, 33, 2),
        (1, Op::ShiftLeft, 31, LEAST),
        (1, Op::ShiftLeft, -1, LEAST),
        (-1, Op::ShiftRight, 1, -1),
        (-8, Op::ShiftRight, 34, -2),
        (GREATEST, Op::Add, 1, LEAST),
        (LEAST, Op::Subtract, 1, GREATEST),
        (65536, Op::Multiply, 65536, 0),
        (7, Op::Divide, 0, 0),
        (7, Op::Remainder, 0, 0),
        (-7, Op::Divide, 2, -3),
        (-7, Op::Remainder, 2, -1),
        (7, Op::Remainder, -2, 1),
        (LEAST, Op::Divide, -1, LEAST),
        (LEAST, Op::Remainder, -1, 0),
    ];
    for (a, op, b, want) in table {
        assert_eq!(rt; binop(op, a, b), want, "{a} {op:?} {b}");
    }
}

/// Compares what a function gives for each number with the value after the number.
macro_rules! gives {
    ($rt:expr; $function:ident; $($number:expr => $want:expr),+) => {
        for (number, want) in [$(($number, $want)),+] {
            assert_eq!($rt; $function(number), want, "{number}");
        }
    };
}

#[test]
fn degrees(rt: HostRuntime) {
    gives!(rt; norm_degree; 0 => 0, 359 => 359, 360 => 0, 725 => 5, -1 => 359, -360 => 0, LEAST => 232);
}

#[test]
fn sines_and_tangents(rt: HostRuntime) {
    gives!(rt; sin; 0 => 0, 45 => 70711, -90 => -100000, 390 => 50000, 150 => 50000, 210 => -50000);
    gives!(rt; cos; 0 => 100000, 60 => 50000, 90 => 0, 180 => -100000, -60 => 50000, 240 => -50000);
    gives!(rt; tan; 0 => 0, 45 => 100000, 90 => GREATEST, 270 => GREATEST, 135 => -100000);
    gives!(rt; tan; -45 => -100000, 89 => 5728996);
}

#[test]
fn arctangents(rt: HostRuntime) {
    gives!(rt; atan; 0 => 0, 56582 => 29, 56583 => 30, 57735 => 30, 58909 => 30, 58910 => 31);
    gives!(rt; atan; 98283 => 44, 98284 => 45, 100000 => 45, 101775 => 45, 101776 => 46);
    gives!(rt; atan; -57735 => -30, 11457991 => 89, 11457992 => 90, GREATEST => 90, LEAST => -90);
}

#[test]
fn roots(rt: HostRuntime) {
    gives!(rt; root; 0 => 0, 15 => 3, 16 => 4, -16 => 4, 1996002 => 1412);
    gives!(rt; root; GREATEST => 46340, LEAST => 46340);
}

#[test]
fn bearings(rt: HostRuntime) {
    let table = [
        (0, 0, 0),
        (1, 0, 0),
        (0, 1, 90),
        (-1, 0, 180),
        (0, -1, 270),
        (999, 999, 45),
        (-999, -999, 225),
        (100, -9, 355),
        (100, 29, 16),
        (349, 3, 0),
        (349, -3, 0),
        (3, 349, 89),
    ];
    for (dx, dy, want) in table {
        assert!(rt; in_field(dx) && in_field(dy));
        assert_eq!(rt; bearing(dx, dy), want, "bearing({dx}, {dy})");
    }
}

#[test]
fn bearings_by_lanes_and_by_a_plain_loop(rt: HostRuntime) {
    for dx in -40..=40 {
        for dy in -40..=40 {
            assert!(rt; in_field(dx) && in_field(dy));
            assert_eq!(rt;
                bearing(dx, dy),
                plain_bearing(dx, dy),
                "bearing({dx}, {dy})"
            );
        }
    }
    for (dx, dy) in [(999, 999), (-999, 999), (999, -999), (-999, -999)] {
        assert!(rt; in_field(dx) && in_field(dy));
        assert_eq!(rt;
            bearing(dx, dy),
            plain_bearing(dx, dy),
            "bearing({dx}, {dy})"
        );
    }
}

/// Returns the bearing by one look at each degree, from the sines and the cosines.
fn plain_bearing(dx: i32, dy: i32) -> u16 {
    let mut best = 0;
    let mut furthest = i32::MIN;
    for degree in 0..360u16 {
        let east = dx.wrapping_mul(cos(i32::from(degree)));
        let north = dy.wrapping_mul(sin(i32::from(degree)));
        let reach = east.wrapping_add(north);
        if reach > furthest {
            best = degree;
            furthest = reach;
        }
    }
    best
}

/// Reports whether a difference is as `bearing` asks of its caller.
fn in_field(difference: i32) -> bool
    ensures { IsTrue result ↔ (unsigned_abs difference ≤ MOST_DIFFERENCE) }
{
    difference.unsigned_abs() <= u32::from(MOST_DIFFERENCE)
}
