//! Matches of whole sources: their reports and totals.

use crate::tests::checks::{
    Ended, Game, ONE_MATCH, check_done, check_faulty, game_of_one, game_of_two, play_one, play_two,
    short_matches, twin_game, twin_report,
};
use series::{CYCLES_DEFAULT, Status};
use std::process::Abort;
use std::test::Fail;

/// A robot that shoots at its own place again and again.
const SHOOTER: &[u8] = b"main(){while(1)cannon(0,0);}";

/// A robot that shoots there once, and then begins anew.
const ONE_SHOT: &[u8] = b"main(){cannon(0,0);}";

/// What the totals say of a robot after one match.
const TIED: &str = "won 0 tied 1 lost 0";

/// The same, if no robot is left.
const LOST: &str = "won 0 tied 0 lost 1";

/// Matches of one file: its source, the most cycles, those that are played, how both robots end, and their totals.
const MATCHES: &[(&[u8], u32, u32, &str, &str)] = &[
    (b"main(){}", 15, 15, "alive damage   0%", TIED),
    (SHOOTER, CYCLES_DEFAULT, 90, "dead  damage 100%", LOST),
    (SHOOTER, 89, 89, "alive damage  80%", TIED),
    // it restarts in each seventh cycle, and shoots in cycles 4, 11, 18 and so on; the shot of cycle 60 comes while two
    // missiles are in the air: so each update takes 20
    (ONE_SHOT, 74, 74, "alive damage  80%", TIED),
    (ONE_SHOT, CYCLES_DEFAULT, 75, "dead  damage 100%", LOST),
];

/// Compares the whole text of a run, and that it is done.
fn check_text(rt: &impl Abort, ended: &Ended, text: &str) {
    assert_eq!(rt; ended.answer, Ok(Status::Done));
    assert_eq!(rt; ended.text.as_slice(), text.as_bytes());
    assert!(rt; ended.faults.is_empty());
}

#[test]
fn matches_have_their_reports_and_totals(rt: HostRuntime) -> Result<(), Fail> {
    for (source, limit, cycles, end, count) in MATCHES {
        let game = Game {
            limit: *limit,
            ..ONE_MATCH
        };
        let ended = play_one(rt.alloc(), &game_of_one(game, "a.r"), source)?;
        let text = twin_game(rt.alloc(), &[1], *cycles, end, count)?;
        check_text(&rt, &ended, &text);
    }
    Ok(())
}

/// The numbers of the matches of games, and what the totals say of both robots.
const NUMBERS: &[(&[u32], &str)] = &[
    (&[2], TIED),
    (&[1_000_000, 1_000_001], "won 0 tied 2 lost 0"),
];

#[test]
fn matches_are_numbered_from_the_first(rt: HostRuntime) -> Result<(), Fail> {
    for (numbers, count) in NUMBERS {
        let game = Game {
            first: numbers[0],
            ..short_matches(numbers.len() as u32)
        };
        let ended = play_one(rt.alloc(), &game_of_one(game, "a.r"), b"main(){}")?;
        let text = twin_game(rt.alloc(), numbers, 15, "alive damage   0%", count)?;
        check_text(&rt, &ended, &text);
    }
    Ok(())
}

/// Files whose shots and restarts show what their cycles do: the source, whether it is of the second profile, the
/// cycles, and how both robots end.
const SHOTS: &[(&[u8], bool, u32, &str)] = &[
    // both sides of && are evaluated: shots in cycles 5 and 14
    (b"main(){0 && cannon(0,0);}", false, 15, "alive damage  20%"),
    // x is read after the call: a shot in cycle 17, which bursts in cycle 30
    (
        b"int x; f(){x=1;return 1;} main(){x+=f(); if(x==2) cannon(0,0); while(1);}",
        false,
        30,
        "alive damage  10%",
    ),
    // a restart clears n
    (
        b"int n; main(){n=n+1; if(n==2) cannon(0,0);}",
        false,
        30,
        "alive damage   0%",
    ),
    // calls without an end restart
    (b"f(){f();} main(){f();}", false, 1000, "alive damage   0%"),
    // the second profile leaves out the right side of &&
    (b"main(){0 && cannon(0,0);}", true, 15, "alive damage   0%"),
    // but not that of || after 0: a shot in cycle 6
    (b"main(){0 || cannon(0,0);}", true, 15, "alive damage  10%"),
    (b"main(){1 || cannon(0,0);}", true, 15, "alive damage   0%"),
    // its value is 1: a shot in cycle 13
    (
        b"main(){if((2&&3)==1) cannon(0,0); while(1);}",
        true,
        30,
        "alive damage  10%",
    ),
];

#[test]
fn reports_show_what_the_cycles_did(rt: HostRuntime) -> Result<(), Fail> {
    for (source, short_circuit, limit, end) in SHOTS {
        let game = Game {
            limit: *limit,
            short_circuit: *short_circuit,
            ..ONE_MATCH
        };
        let ended = play_one(rt.alloc(), &game_of_one(game, "a.r"), source)?;
        assert_eq!(rt; ended.answer, Ok(Status::Done));
        let report = twin_report(rt.alloc(), 1, *limit, end)?;
        assert!(rt; ended.text.starts_with(report.as_bytes()), "{limit}");
    }
    Ok(())
}

#[test]
fn the_sole_survivor_won(rt: HostRuntime) -> Result<(), Fail> {
    let settings = game_of_two(ONE_MATCH);
    let ended = play_two(rt.alloc(), &settings, SHOOTER, b"main(){while(1);}")?;
    check_done(
        &rt,
        &ended,
        &[
            "Match 1: cycles = 90",
            "  1) dead  damage 100% a.r",
            "  2) alive damage   0% b.r",
            "Totals: 1 matches",
            "  1) won 0 tied 0 lost 1 a.r",
            "  2) won 1 tied 0 lost 0 b.r",
        ],
    )
}

#[test]
fn no_match_is_played_after_a_fault(rt: HostRuntime) -> Result<(), Fail> {
    let ended = play_one(rt.alloc(), &game_of_one(ONE_MATCH, "e.r"), b"")?;
    check_faulty(&rt, &ended, &["e.r:1: no main function"])?;
    let settings = game_of_two(ONE_MATCH);
    let ended = play_two(rt.alloc(), &settings, SHOOTER, b"main(){\nbreak; }")?;
    check_faulty(&rt, &ended, &["b.r:2: reserved word"])
}

#[test]
fn a_later_first_number_plays_the_same_match(rt: HostRuntime) -> Result<(), Fail> {
    let three = Game {
        matches: 3,
        ..ONE_MATCH
    };
    let third = Game {
        first: 3,
        ..ONE_MATCH
    };
    let all = play_one(rt.alloc(), &game_of_one(three, "a.r"), SHOOTER)?;
    let one = play_one(rt.alloc(), &game_of_one(third, "a.r"), SHOOTER)?;
    let report = twin_report(rt.alloc(), 3, 90, "dead  damage 100%")?;
    // each report is of 75 bytes
    assert_eq!(rt; all.text.as_slice().get(150..225), Some(report.as_bytes()));
    assert!(rt; one.text.starts_with(report.as_bytes()));
    Ok(())
}
