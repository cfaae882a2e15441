//! Limits: what a parse answers to a source at each limit, and to one past it, in pieces of many sizes.

use crate::tests::checks::{check_fault, check_fault_by, check_fault_in};
use crate::tests::sources::Part::{Once, Times};
use crate::tests::sources::{Part, numbered, source_of};
use lang::{Code, Profile};
use std::test::Fail;

/// Sources at a limit of tokens or of nesting, and one past it, each with its fault.
const LIMITS: &[(&[Part], Option<(u32, Code)>)] = &[
    (&[Once(b"main(){\n2147483647;}")], None),
    (
        &[Once(b"main(){\n2147483648;}")],
        Some((2, Code::ConstantTooLarge)),
    ),
    (&[Once(b"main(){\n"), Times(b"a", 31), Once(b";}")], None),
    (
        &[Once(b"main(){\n"), Times(b"a", 32), Once(b";}")],
        Some((2, Code::NameTooLong)),
    ),
    // the function's own block is nested
    (
        &[
            Once(b"main(){\n"),
            Times(b"(", 63),
            Once(b"1"),
            Times(b")", 63),
            Once(b";}"),
        ],
        None,
    ),
    (
        &[
            Once(b"main(){\n"),
            Times(b"(", 64),
            Once(b"1"),
            Times(b")", 64),
            Once(b";}"),
        ],
        Some((2, Code::NestedTooDeeply)),
    ),
];

#[test]
fn tokens_and_nesting_have_limits(rt: HostRuntime) -> Result<(), Fail> {
    for (parts, wanted) in LIMITS {
        check_fault(&rt, &source_of(rt.alloc(), parts)?, *wanted)?;
    }
    Ok(())
}

/// Sources of the most bytes, and of one more, each with its fault.
const LENGTHS: &[(&[Part], Option<(u32, Code)>)] = &[
    (&[Once(b"main(){}"), Times(b" ", 1_048_576 - 8)], None),
    (
        &[Once(b"main(){}\n"), Times(b" ", 1_048_577 - 9)],
        Some((2, Code::SourceTooLong)),
    ),
    (
        &[Once(b"main(){}\n/*"), Times(b" ", 1_048_576 - 11)],
        Some((2, Code::CommentNotClosed)),
    ),
];

#[test]
fn sources_have_a_limit(rt: HostRuntime) -> Result<(), Fail> {
    for (parts, wanted) in LENGTHS {
        let source = source_of(rt.alloc(), parts)?;
        check_fault_by(&rt, 1, Profile::first(), &source, *wanted)?;
        check_fault_by(&rt, usize::MAX, Profile::first(), &source, *wanted)?;
    }
    Ok(())
}

/// A number of names, and the fault of a source that has this many.
type Named = (u8, Option<(u32, Code)>);

#[test]
fn names_have_limits(rt: HostRuntime) -> Result<(), Fail> {
    let variables: [Named; 2] = [(64, None), (65, Some((1, Code::TooManyVariables)))];
    for (count, wanted) in variables {
        let source = numbered(rt.alloc(), b"main(){", b"v", b";", count, b"\n}")?;
        check_fault(&rt, &source, wanted)?;
    }
    let externals: [Named; 2] = [(64, None), (65, Some((65, Code::TooManyVariables)))];
    for (count, wanted) in externals {
        let source = numbered(rt.alloc(), b"", b"int e", b";\n", count, b"main(){}")?;
        check_fault(&rt, &source, wanted)?;
    }
    // `main` is one more
    let functions: [Named; 2] = [(63, None), (64, Some((65, Code::TooManyFunctions)))];
    for (count, wanted) in functions {
        let source = numbered(rt.alloc(), b"", b"f", b"(){}\n", count, b"main(){}")?;
        check_fault(&rt, &source, wanted)?;
    }
    Ok(())
}

#[test]
fn code_has_a_limit_by_its_profile(rt: HostRuntime) -> Result<(), Fail> {
    let too_much = Some((2, Code::TooMuchCode));
    for (profile, statements, wanted) in [
        (Profile::first(), 998, None),
        (Profile::first(), 999, too_much),
        (Profile::second(), 1_998, None),
        (Profile::second(), 1_999, too_much),
    ] {
        let parts = [Once(b"main(){"), Times(b"1;", statements), Once(b"\n}\n")];
        let source = source_of(rt.alloc(), &parts)?;
        check_fault_in(&rt, profile, &source, wanted)?;
    }
    Ok(())
}
