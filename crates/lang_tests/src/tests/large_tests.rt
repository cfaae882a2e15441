//! Large files: the trees of many statements, arguments, functions and open things report the actions of the parse.

use crate::tests::recorder::Recorder;
use crate::tests::sources::Part::{Once, Times};
use crate::tests::sources::{Part, numbered, source_of};
use lang::{BuildFault, ParseFault, Profile, TreeMaker, parse};
use std::process::Abort;
use std::test::Fail;
use tokens::MemoryFeed;

/// What is in the block of a large file's `main`, by its parts, each with the number of its actions.
const LARGE: &[(&[Part], usize)] = &[
    // statements: `PushConstant` and `Chop`, or `GiveBack`, for each
    (&[Times(b"1;", 1_900)], 2 * 1_900),
    (&[Times(b"return 1;", 1_900)], 2 * 1_900),
    // both branches, and a body that is empty
    (&[Times(b"if(1) 2; else 3;", 400)], 8 * 400),
    (&[Times(b"while(1);", 900)], 4 * 900),
    // arguments of a function of the file and of an intrinsic one
    (
        &[Once(b"main(1"), Times(b",2", 3_900), Once(b");")],
        4 + 3_900,
    ),
    (
        &[Once(b"a=1+rand(1"), Times(b",a++", 900), Once(b");")],
        7 + 4 * 900,
    ),
    // left sides inside one another
    (
        &[Once(b"1"), Times(b"+2", 1_900), Once(b";")],
        2 + 2 * 1_900,
    ),
    // calls and right sides inside one another: each has `BeginCall`, two constants, two `LogicMiddle`, two
    // `ApplyBinop` and `EndCall`
    (
        &[
            Times(b"rand(1||2&&", 60),
            Once(b"3"),
            Times(b")", 60),
            Once(b";"),
        ],
        2 + 8 * 60,
    ),
    // branches and loops inside one another, and a long call inside them all
    (
        &[
            Times(b"if(1) while(2) ", 29),
            Once(b"rand(3"),
            Times(b",4", 500),
            Once(b");"),
        ],
        7 * 29 + 4 + 500,
    ),
];

/// The number of a function's own actions: `BeginFunction`, `PushConstant`, `GiveBack` and `EndFunction`.
const OF_A_FUNCTION: usize = 4;

/// Compares what a parse of the source reports with what its trees report then, and how many actions they are.
fn check_actions(rt: &(impl Abort + AllocGlobal), source: &[u8], count: usize) -> Result<(), Fail> {
    let trees = TreeMaker::new(rt.alloc(), Profile::second());
    let mut parsed = Recorder::around(rt.alloc(), trees);
    parse(&mut MemoryFeed::new(source, 4_096), &mut parsed)?;
    let trees = TreeMaker::new(rt.alloc(), Profile::second());
    let mut replayed = Recorder::around(rt.alloc(), trees);
    parsed.inner.replay(&mut replayed)?;
    assert_eq!(rt; parsed.actions.len(), count);
    assert_eq!(rt; replayed.actions.len(), count);
    for (action, again) in parsed.actions.iter().zip(replayed.actions.iter()) {
        assert!(rt; again == action);
    }
    Ok(())
}

#[test]
fn large_files_are_kept_and_replayed(rt: HostRuntime) -> Result<(), Fail> {
    for (parts, count) in LARGE {
        let mut source = Vec::from_slice(rt.alloc(), b"main(){")?;
        source.extend_from_slice(source_of(rt.alloc(), parts)?.as_slice())?;
        source.push(b'}')?;
        check_actions(&rt, &source, OF_A_FUNCTION + *count)?;
    }
    Ok(())
}

#[test]
fn the_most_functions_are_kept_and_replayed(rt: HostRuntime) -> Result<(), Fail> {
    let block = source_of(rt.alloc(), &[Once(b"(){"), Times(b"1;", 25), Once(b"}")])?;
    let source = numbered(rt.alloc(), b"", b"f", &block, 63, b"main(){}")?;
    check_actions(&rt, &source, OF_A_FUNCTION + 63 * (OF_A_FUNCTION + 2 * 25))
}
