//! The positions of instructions of small sources.

use derivations::{SourcePosition, fitting, lines, locate};
use grammar::Profile;
use std::process::Abort;
use std::test::Fail;
use tokens::{Punctuator, Token};

/// Compares the positions of a source's instructions with rows of a line and a column.
fn check(
    rt: &impl Abort,
    profile: Profile,
    source: &[u8],
    wanted: &[(u32, u32)],
) -> Result<(), Fail> {
    let Some(lines) = lines(source, profile) else {
        return Err(Fail::from("no lines"));
    };
    for (address, (line, column)) in wanted.iter().enumerate() {
        let place = SourcePosition {
            line: *line,
            column: *column,
        };
        assert_eq!(rt; lines.place(address), Some(place));
    }
    assert_eq!(rt; lines.len(), wanted.len());
    Ok(())
}

#[test]
fn places_of_a_small_robot(rt: HostRuntime) -> Result<(), Fail> {
    check(
        &rt,
        Profile::first(),
        b"main()\n{\n  while (1)\n    cannon(a, 7 + 2);\n}\n",
        &[
            (3, 10),
            (3, 3),
            (4, 5),
            (4, 12),
            (4, 15),
            (4, 19),
            (4, 17),
            (4, 5),
            (4, 21),
            (3, 3),
            (3, 3),
            (5, 1),
            (5, 1),
            (6, 1),
        ],
    )
}

#[test]
fn places_of_a_condition_by_the_second_profile(rt: HostRuntime) -> Result<(), Fail> {
    check(
        &rt,
        Profile::second(),
        b"main(){\n if (a)\n  b;\n}",
        &[(2, 6), (2, 2), (3, 3), (3, 4), (4, 1), (4, 1), (4, 2)],
    )
}

#[test]
fn what_fits_after_a_whole_expression(rt: HostRuntime) -> Result<(), Fail> {
    let Ok(tokens) = locate(rt.alloc(), b"main(){ a = 1 }") else {
        return Err(Fail::from("no tokens"));
    };
    let found = fitting(tokens.as_slice(), 7);
    assert_eq!(&rt; found.len(), 19);
    let has_semicolon = found.iter().any(|located| located.token
        == Token::Punctuator(Punctuator::Semicolon));
    assert_eq!(&rt; has_semicolon, true);
    Ok(())
}
