//! Which sources are translated.

use crate::tests::made::{operations_of, program_of};
use code::Profile;
use operations::Operation;
use std::alloc::{AllocError, Global};
use std::process::Abort;
use std::test::Fail;

/// Reports whether a good source is translated.
fn is_translated(profile: Profile, source: &[u8]) -> Result<bool, Fail> {
    let program = program_of(profile, source)?;
    Ok(!operations_of(&program).is_empty())
}

/// What a source tries, the source, and whether it is translated in the first and in the second profile.
const SOURCES: &[(&str, &[u8], bool, bool)] = &[
    ("nothing", b"main(){}", true, true),
    (
        "a call within another",
        b"f(a){return a;} main(){f(f(1));}",
        true,
        true,
    ),
    (
        "a call within two others",
        b"f(a){return a;} main(){f(f(f(1)));}",
        false,
        false,
    ),
    (
        "a question within two calls",
        b"f(a){return a;} main(){f(f(damage()));}",
        true,
        true,
    ),
    (
        "a call within two questions",
        b"f(a){return a;} main(){sin(cos(f(1)));}",
        false,
        false,
    ),
    (
        "sixteen questions, each within the others",
        b"main(){sin(sin(sin(sin(sin(sin(sin(sin(sin(sin(sin(sin(sin(sin(sin(sin(9))))))))))))))));}",
        true,
        true,
    ),
    (
        "seventeen questions, each within the others",
        b"main(){sin(sin(sin(sin(sin(sin(sin(sin(sin(sin(sin(sin(sin(sin(sin(sin(sin(9)))))))))))))))));}",
        false,
        false,
    ),
    // only the second profile has branches for these
    (
        "a choice among a call's arguments",
        b"main(){int a; scan(a || damage(), 9);}",
        true,
        false,
    ),
    (
        "a choice that is no argument",
        b"main(){int a; if (a && scan(1, 9)) a = 5;}",
        true,
        true,
    ),
    // nothing reaches a jump behind a return, and all that is reached finds its words as if the jump weren't there
    (
        "a choice behind a return",
        b"main(){int a; if (a) {return 1; if (a) a = 2; a = 3;} a = 4;}",
        true,
        true,
    ),
    (
        "a choice of two behind a return",
        b"main(){int a; if (a) {return 1; if (a) a = 2; else a = 3; a = 4;} a = 5;}",
        true,
        true,
    ),
    (
        "a loop behind a return",
        b"main(){int a; if (a) {return 1; while (a) a = 2; a = 3;} a = 4;}",
        true,
        true,
    ),
    (
        "a conjunction behind a return",
        b"main(){int a; if (a) {return 1; a = a && 2; a = 3;} a = 4;}",
        true,
        true,
    ),
    (
        "a disjunction behind a return",
        b"main(){int a; if (a) {return 1; a = a || 2; a = 3;} a = 4;}",
        true,
        true,
    ),
    (
        "a choice behind two returns",
        b"main(){int a; while (a) {return; return a; if (a) a = 2; a = 3;} a = 4;}",
        true,
        true,
    ),
    (
        "a choice behind a return of a call's value",
        b"f(a){return a;} main(){int a; if (a) {return f(1); if (a) a = 2; a = 3;} a = 4;}",
        true,
        true,
    ),
    (
        "a choice behind a return in a loop behind another",
        b"main(){int a; if (a) {return 1; while (a) {return 2; if (a) a = 2; a = 3;} a = 4;} a = 5;}",
        true,
        true,
    ),
];

#[test]
fn sources_are_translated(rt: HostRuntime) -> Result<(), Fail> {
    for (name, source, first, second) in SOURCES {
        assert_eq!(rt; is_translated(Profile::first(), source)?, *first, "{name}");
        assert_eq!(rt;
            is_translated(Profile::second(), source)?,
            *second,
            "{name}, second profile"
        );
    }
    Ok(())
}

/// Makes a source of the given number of statements, each of which assigns its number, from 0 on, to these variables.
fn assignments(alloc: Global, variables: &str, times: u16) -> Result<String, AllocError> {
    let mut source = String::new(alloc);
    source.push_str("main(){int a,b;")?;
    for number in 0..times {
        write!(source, "{variables}{number};")?;
    }
    source.push_str("}")?;
    Ok(source)
}

/// Checks that a source of the given number of such statements is translated, and that one with one more isn't.
fn check_most(
    rt: &(impl Abort + AllocGlobal),
    profile: Profile,
    variables: &str,
    most: u16,
) -> Result<(), Fail> {
    for (times, want) in [(most, true), (most.saturating_add(1), false)] {
        let source = assignments(rt.alloc(), variables, times)?;
        let found = is_translated(profile, source.as_bytes())?;
        assert_eq!(rt; found, want, "{variables}.. {times} times");
    }
    Ok(())
}

// A program may have 448 constants, here 0 to 447.
#[test]
fn constants_are_counted(rt: HostRuntime) -> Result<(), Fail> {
    check_most(&rt, Profile::first(), "a=", 448)
}

/// Makes a source of 255 statements of eight assignments, and of one with the given assignments.
fn assigned_operations(alloc: Global, assigned: &str) -> Result<String, AllocError> {
    let mut source = String::new(alloc);
    source.push_str("main(){int a,b;")?;
    for number in 0..255 {
        write!(source, "a=b=a=b=a=b=a=b={number};")?;
    }
    write!(source, "{assigned}5;}}")?;
    Ok(source)
}

// A program may have 2,048 operations. Each statement of eight assignments has ten instructions, `CONST`, eight times
// `STORE` and `CHOP`, and eight operations. After them are two more: one counts their cycles, and one returns. So 255
// statements make 2,042 of them, and six more assignments make 2,048. A variable is never assigned to itself: that takes a
// copy.
#[test]
fn operations_are_counted(rt: HostRuntime) -> Result<(), Fail> {
    for (assigned, want) in [("b=a=b=a=b=a=", true), ("a=b=a=b=a=b=a=", false)] {
        let source = assigned_operations(rt.alloc(), assigned)?;
        let found = is_translated(Profile::second(), source.as_bytes())?;
        assert_eq!(rt; found, want, "{assigned}5 more");
    }
    Ok(())
}

/// Makes a source that passes the given number of constants, at least one, to a function that has variables of its own.
fn passing(alloc: Global, passed: u16) -> Result<String, AllocError> {
    let mut source = String::new(alloc);
    source.push_str("f(){} main(){int a,b,c,d; f(1")?;
    for _ in 1..passed {
        source.push_str(",1")?;
    }
    source.push_str(");}")?;
    Ok(source)
}

// A function's run may have 256 words: here four variables, and 252 arguments.
#[test]
fn words_are_counted(rt: HostRuntime) -> Result<(), Fail> {
    for profile in [Profile::first(), Profile::second()] {
        for (passed, want) in [(252, true), (253, false)] {
            let source = passing(rt.alloc(), passed)?;
            let found = is_translated(profile, source.as_bytes())?;
            assert_eq!(rt; found, want, "{passed} arguments");
        }
    }
    Ok(())
}

#[test]
fn an_operation_has_eight_bytes(rt: HostRuntime) -> Result<(), Fail> {
    // a byte of its own, and of a call within another five numbers of one byte and one of two
    assert_eq!(rt; size_of::<Operation>(), 8);
    Ok(())
}
