//! Runs over several files, and over devices that fail: what the sinks hold, and how a run ends.

ghost use Rattle.std.specs.Prelude.{◌<◌};

use crate::tests::checks::{
    EMPTY_MAIN, Ended, ONE_MATCH, check_ended, game_of_one, game_of_two, listing_of_one,
    listing_of_three, run_into, short_matches, text_of, twin_game,
};
use series::{MemorySink, RunFault, Status, run};
use std::process::Abort;
use std::test::Fail;
use tokens::MemoryFeed;

#[test]
fn each_file_has_its_own_piece(rt: HostRuntime) -> Result<(), Fail> {
    for most in [4096, 1] {
        let mut feeds = [
            MemoryFeed::new(b"main(){}", most),
            MemoryFeed::new(b"main(){ f(); }", most),
            MemoryFeed::new(b"main(){\nbreak; }", most),
        ];
        let (mut out, mut err) = (MemorySink::new(rt.alloc()), MemorySink::new(rt.alloc()));
        let ended = run_into(&listing_of_three(), &mut feeds, &mut out, &mut err)?;
        let faults = &["b.r:1: function not defined", "c.r:2: reserved word"];
        check_ended(&rt, &ended, Ok(Status::Faulty), EMPTY_MAIN, faults)?;
        assert_eq!(rt; err.portions().len(), 2);
    }
    Ok(())
}

#[test]
fn a_failed_read_ends_the_run(rt: HostRuntime) -> Result<(), Fail> {
    let mut feeds = [
        MemoryFeed::new(b"main(){}", 4096),
        MemoryFeed::failing_at(b"main(){}", 4, 1),
        MemoryFeed::new(b"main(){ f(); }", 4096),
    ];
    let (mut out, mut err) = (MemorySink::new(rt.alloc()), MemorySink::new(rt.alloc()));
    let ended = run_into(&listing_of_three(), &mut feeds, &mut out, &mut err)?;
    check_ended(&rt, &ended, Err(RunFault::Read(1)), EMPTY_MAIN, &[])?;
    assert_eq!(rt; err.portions().len(), 0);
    Ok(())
}

#[test]
fn a_failed_write_leaves_a_beginning(rt: HostRuntime) -> Result<(), Fail> {
    let whole = text_of(rt.alloc(), EMPTY_MAIN)?;
    for room in 0..whole.len() {
        let mut out = MemorySink::new(rt.alloc()).with_room(room);
        let mut err = MemorySink::new(rt.alloc());
        let mut feeds = [MemoryFeed::new(b"main(){}", 4096)];
        assert_eq!(rt;
            run(&listing_of_one("a.r"), &mut feeds, &mut out, &mut err),
            Err(RunFault::Write)
        );
        assert_eq!(rt; out.joined()?.as_slice(), &whole.as_slice()[..room]);
        assert_eq!(rt; out.failures(), 1);
    }
    Ok(())
}

/// The sources of three files, of which the second has a fault.
const GOOD_FAULTY_GOOD: [&[u8]; 3] = [b"main(){}", b"main(){ f(); }", b"main(){}"];

/// Runs a listing of them, whose sinks have room for the given number of bytes, and returns what they took.
fn list_within(
    rt: &(impl Abort + AllocGlobal),
    most: usize,
    room: usize,
    faults_room: usize,
) -> Result<Ended, Fail>
    requires { 0 < most }
{
    let mut out = MemorySink::new(rt.alloc()).with_most(most).with_room(room);
    let mut err = MemorySink::new(rt.alloc())
        .with_most(most)
        .with_room(faults_room);
    let [first, second, third] = GOOD_FAULTY_GOOD;
    let mut feeds = [
        MemoryFeed::new(first, most),
        MemoryFeed::new(second, most),
        MemoryFeed::new(third, most),
    ];
    Ok(run_into(&listing_of_three(), &mut feeds, &mut out, &mut err)?)
}

#[test]
fn a_failed_write_leaves_a_beginning_of_two_listings(rt: HostRuntime) -> Result<(), Fail> {
    let mut whole = text_of(rt.alloc(), EMPTY_MAIN)?;
    whole.extend_from_slice(b"File c.r\n")?;
    whole.extend_from_slice(text_of(rt.alloc(), &EMPTY_MAIN[1..])?.as_slice())?;
    // 187 sizes of room, of which those below 93 end in the first listing
    assert_eq!(rt; whole.len(), 186);
    for most in [4096, 1] {
        for room in 0..=186 {
            let ended = list_within(&rt, most, room, usize::MAX)?;
            let faults = if room < 93 {
                b"".as_slice()
            } else {
                b"b.r:1: function not defined\n".as_slice()
            };
            let wanted = if room < 186 {
                Err(RunFault::Write)
            } else {
                Ok(Status::Faulty)
            };
            assert_eq!(rt; ended.answer, wanted, "{room}");
            assert_eq!(rt;
                Some(ended.text.as_slice()),
                whole.as_slice().get(..room),
                "{room}"
            );
            assert_eq!(rt; ended.faults.as_slice(), faults, "{room}");
        }
    }
    Ok(())
}

#[test]
fn a_failed_write_leaves_a_beginning_of_a_diagnostic(rt: HostRuntime) -> Result<(), Fail> {
    let faults = b"b.r:1: function not defined\n".as_slice();
    // 28 sizes of room that are too small
    assert_eq!(rt; faults.len(), 28);
    for most in [4096, 1] {
        for room in 0..28 {
            let ended = list_within(&rt, most, usize::MAX, room)?;
            assert_eq!(rt; ended.answer, Err(RunFault::Write), "{room}");
            assert_eq!(rt;
                ended.text.as_slice(),
                text_of(rt.alloc(), EMPTY_MAIN)?.as_slice(),
                "{room}"
            );
            assert_eq!(rt; Some(ended.faults.as_slice()), faults.get(..room), "{room}");
        }
    }
    Ok(())
}

#[test]
fn a_failed_write_leaves_a_beginning_of_the_reports(rt: HostRuntime) -> Result<(), Fail> {
    let count = "won 0 tied 2 lost 0";
    let whole = twin_game(rt.alloc(), &[1, 2], 15, "alive damage   0%", count)?;
    assert_eq!(rt; whole.len(), 226);
    for most in [usize::MAX, 1] {
        for room in 0..=whole.len() {
            let mut out = MemorySink::new(rt.alloc()).with_most(most).with_room(room);
            let mut err = MemorySink::new(rt.alloc());
            let mut feeds = [MemoryFeed::new(b"main(){}", 4096)];
            let settings = game_of_one(short_matches(2), "a.r");
            let answer = run(&settings, &mut feeds, &mut out, &mut err);
            let wanted = if room < whole.len() {
                Err(RunFault::Write)
            } else {
                Ok(Status::Done)
            };
            assert_eq!(rt; answer, wanted);
            assert_eq!(rt;
                Some(out.joined()?.as_slice()),
                whole.as_bytes().get(..room)
            );
        }
    }
    Ok(())
}

#[test]
fn each_report_is_written_by_itself(rt: HostRuntime) -> Result<(), Fail> {
    let settings = game_of_one(short_matches(200), "a.r");
    let mut out = MemorySink::new(rt.alloc());
    let mut err = MemorySink::new(rt.alloc());
    let mut feeds = [MemoryFeed::new(b"main(){}", 4096)];
    assert_eq!(rt;
        run(&settings, &mut feeds, &mut out, &mut err),
        Ok(Status::Done)
    );
    assert_eq!(rt; out.portions().len(), 201);
    for (index, portion) in out.portions().iter().enumerate() {
        let begin = if index < 200 {
            b"Match ".as_slice()
        } else {
            b"Totals".as_slice()
        };
        assert!(rt; portion.starts_with(begin));
        assert_eq!(rt; portion.iter().filter(|b| **b == b'\n').count(), 3);
    }
    Ok(())
}

#[test]
fn a_failed_read_leaves_the_diagnostics_before_it(rt: HostRuntime) -> Result<(), Fail> {
    for (first, faults) in [
        (b"main(){}".as_slice(), &[] as &[&str]),
        (b"".as_slice(), &["a.r:1: no main function"]),
    ] {
        let mut feeds = [
            MemoryFeed::new(first, 4096),
            MemoryFeed::failing_at(b"main(){}", 4096, 0),
        ];
        let (mut out, mut err) = (MemorySink::new(rt.alloc()), MemorySink::new(rt.alloc()));
        let ended = run_into(&game_of_two(ONE_MATCH), &mut feeds, &mut out, &mut err)?;
        check_ended(&rt, &ended, Err(RunFault::Read(1)), &[], faults)?;
        assert_eq!(rt; out.portions().len(), 0);
    }
    Ok(())
}

#[test]
fn a_fault_that_is_decided_wins(rt: HostRuntime) -> Result<(), Fail> {
    for (source, answer) in [
        (b"main(){ break; ".as_slice(), Ok(Status::Faulty)),
        (b"main(){ break".as_slice(), Err(RunFault::Read(0))),
    ] {
        let mut feeds = [MemoryFeed::failing_at(source, 4096, 1)];
        let mut out = MemorySink::new(rt.alloc());
        let mut err = MemorySink::new(rt.alloc());
        let settings = game_of_one(ONE_MATCH, "a.r");
        assert_eq!(rt; run(&settings, &mut feeds, &mut out, &mut err), answer);
        assert_eq!(rt; out.portions().len(), 0);
    }
    Ok(())
}
