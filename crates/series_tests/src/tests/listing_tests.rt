//! Listings of good files, and the diagnostics of faulty ones, from their sources.

use crate::tests::checks::{EMPTY_MAIN, check_fault, check_listing, check_long_listing, text_of};
use std::alloc::{AllocError, Global};
use std::test::Fail;

/// The lines of the listing of `main(){1+2;}`.
const SUM: &[&str] = &[
    "File a.r",
    "Externals 0",
    "Function 0 main vars 0 at 0",
    "Code 7",
    "    0 CONST 1",
    "    1 CONST 2",
    "    2 BINOP +",
    "    3 CHOP",
    "    4 CONST 0",
    "    5 RETSUB",
    "    6 NOP",
];

/// The lines of the listing of `main(){ x = a+++b; }`.
const POSTFIX: &[&str] = &[
    "File a.r",
    "Externals 0",
    "Function 0 main vars 3 at 0",
    "  0 x",
    "  1 a",
    "  2 b",
    "Code 11",
    "    0 FETCH L1",
    "    1 CONST 1",
    "    2 STORE L1 +=",
    "    3 CHOP",
    "    4 FETCH L2",
    "    5 BINOP +",
    "    6 STORE L0 =",
    "    7 CHOP",
    "    8 CONST 0",
    "    9 RETSUB",
    "   10 NOP",
];

/// The lines of the listing of `d(x,y) int x,y; {return(x*x+y*y);} main(){d(3);}`.
const PARAMETERS: &[&str] = &[
    "File a.r",
    "Externals 0",
    "Function 0 d vars 2 at 0",
    "  0 x",
    "  1 y",
    "Function 1 main vars 0 at 10",
    "Code 17",
    "    0 FETCH L0",
    "    1 FETCH L0",
    "    2 BINOP *",
    "    3 FETCH L1",
    "    4 FETCH L1",
    "    5 BINOP *",
    "    6 BINOP +",
    "    7 RETSUB",
    "    8 CONST 0",
    "    9 RETSUB",
    "   10 FRAME",
    "   11 CONST 3",
    "   12 FCALL 0",
    "   13 CHOP",
    "   14 CONST 0",
    "   15 RETSUB",
    "   16 NOP",
];

/// The lines of the listing of `f(a){return a+damage();} main(){f(5);}`.
const ASKING: &[&str] = &[
    "File a.r",
    "Externals 0",
    "Function 0 f vars 1 at 0",
    "  0 a",
    "Function 1 main vars 0 at 7",
    "Code 14",
    "    0 FETCH L0",
    "    1 FRAME",
    "    2 FCALL damage",
    "    3 BINOP +",
    "    4 RETSUB",
    "    5 CONST 0",
    "    6 RETSUB",
    "    7 FRAME",
    "    8 CONST 5",
    "    9 FCALL 0",
    "   10 CHOP",
    "   11 CONST 0",
    "   12 RETSUB",
    "   13 NOP",
];

/// The lines of the listing of `main(){if(a) if(b) c; else d;}`.
const NEAREST_IF: &[&str] = &[
    "File a.r",
    "Externals 0",
    "Function 0 main vars 4 at 0",
    "  0 a",
    "  1 b",
    "  2 c",
    "  3 d",
    "Code 13",
    "    0 FETCH L0",
    "    1 BRANCH 10",
    "    2 FETCH L1",
    "    3 BRANCH 8",
    "    4 FETCH L2",
    "    5 CHOP",
    "    6 CONST 0",
    "    7 BRANCH 10",
    "    8 FETCH L3",
    "    9 CHOP",
    "   10 CONST 0",
    "   11 RETSUB",
    "   12 NOP",
];

/// A file with an external, a function, a loop and an intrinsic.
const SHOT: &[u8] = b"int x; f(){x=1;return 1;} main(){x+=f(); if(x==2) cannon(0,0); while(1);}";

/// The lines of its listing.
const SHOT_LISTED: &[&str] = &[
    "File a.r",
    "Externals 1",
    "  0 x",
    "Function 0 f vars 0 at 0",
    "Function 1 main vars 0 at 7",
    "Code 27",
    "    0 CONST 1",
    "    1 STORE E0 =",
    "    2 CHOP",
    "    3 CONST 1",
    "    4 RETSUB",
    "    5 CONST 0",
    "    6 RETSUB",
    "    7 FRAME",
    "    8 FCALL 0",
    "    9 STORE E0 +=",
    "   10 CHOP",
    "   11 FETCH E0",
    "   12 CONST 2",
    "   13 BINOP ==",
    "   14 BRANCH 20",
    "   15 FRAME",
    "   16 CONST 0",
    "   17 CONST 0",
    "   18 FCALL cannon",
    "   19 CHOP",
    "   20 CONST 1",
    "   21 BRANCH 24",
    "   22 CONST 0",
    "   23 BRANCH 20",
    "   24 CONST 0",
    "   25 RETSUB",
    "   26 NOP",
];

/// The lines of the listing of `main(){while(1) if(0) 2; else 3;}`.
const TURNING: &[&str] = &[
    "File a.r",
    "Externals 0",
    "Function 0 main vars 0 at 0",
    "Code 15",
    "    0 CONST 1",
    "    1 BRANCH 12",
    "    2 CONST 0",
    "    3 BRANCH 8",
    "    4 CONST 2",
    "    5 CHOP",
    "    6 CONST 0",
    "    7 BRANCH 10",
    "    8 CONST 3",
    "    9 CHOP",
    "   10 CONST 0",
    "   11 BRANCH 0",
    "   12 CONST 0",
    "   13 RETSUB",
    "   14 NOP",
];

/// The lines of the listing of `main(){2147483647;}`.
const GREATEST: &[&str] = &[
    "File a.r",
    "Externals 0",
    "Function 0 main vars 0 at 0",
    "Code 5",
    "    0 CONST 2147483647",
    "    1 CHOP",
    "    2 CONST 0",
    "    3 RETSUB",
    "    4 NOP",
];

/// The lines of the listing of `main(){abcdefghijklmnopqrstuvwxyz_1234;}`.
const LONGEST_NAME: &[&str] = &[
    "File a.r",
    "Externals 0",
    "Function 0 main vars 1 at 0",
    "  0 abcdefghijklmnopqrstuvwxyz_1234",
    "Code 5",
    "    0 FETCH L0",
    "    1 CHOP",
    "    2 CONST 0",
    "    3 RETSUB",
    "    4 NOP",
];

/// The lines of the listing of `main(){1;}`.
const ONE: &[&str] = &[
    "File a.r",
    "Externals 0",
    "Function 0 main vars 0 at 0",
    "Code 5",
    "    0 CONST 1",
    "    1 CHOP",
    "    2 CONST 0",
    "    3 RETSUB",
    "    4 NOP",
];

/// Good files: the word, the source and the lines of the listing.
pub const LISTINGS: &[(&str, &[u8], &[&str])] = &[
    ("a.r", b"main(){}", EMPTY_MAIN),
    ("k/a.r", b"main(){1+2;}", SUM),
    ("a.r", b"main(){ x = a+++b; }", POSTFIX),
    (
        "a.r",
        b"d(x,y) int x,y; {return(x*x+y*y);} main(){d(3);}",
        PARAMETERS,
    ),
    ("a.r", b"f(a){return a+damage();} main(){f(5);}", ASKING),
    ("a.r", b"main(){if(a) if(b) c; else d;}", NEAREST_IF),
    ("a.r", b"main(){while(1) if(0) 2; else 3;}", TURNING),
    ("a.r", SHOT, SHOT_LISTED),
    // the byte 26 ends a source
    ("a.r", b"main(){}\x1a/* x", EMPTY_MAIN),
];

#[test]
fn good_files_are_listed(rt: HostRuntime) -> Result<(), Fail> {
    for (word, source, lines) in LISTINGS {
        check_listing(&rt, word, source, lines)?;
    }
    Ok(())
}

/// Faulty files: the word, the source and the diagnostic.
const FAULTS: &[(&str, &[u8], &str)] = &[
    ("e.r", b"", "e.r:1: no main function"),
    ("b.r", b"main(){ f(); }", "b.r:1: function not defined"),
    ("k/c.r", b"main(){\nbreak; }", "c.r:2: reserved word"),
    ("a.r", b"main(){a b;}", "a.r:1: syntax error"),
    ("a.r", b"main(){}\n/* x", "a.r:2: comment not closed"),
    ("a.r", b"main(){\"}", "a.r:1: bad character"),
    ("a.r", b"f(){}\nf(){}", "a.r:2: function defined twice"),
    ("a.r", b"scan(){}", "a.r:1: intrinsic redefined"),
    (
        "a.r",
        b"main(a)\nint b; {}",
        "a.r:2: bad parameter declaration",
    ),
];

#[test]
fn faults_are_named(rt: HostRuntime) -> Result<(), Fail> {
    for (word, source, diagnostic) in FAULTS {
        check_fault(&rt, word, source, diagnostic)?;
    }
    Ok(())
}

#[test]
fn constants_and_names_have_limits(rt: HostRuntime) -> Result<(), Fail> {
    check_listing(&rt, "a.r", b"main(){2147483647;}", GREATEST)?;
    check_fault(
        &rt,
        "a.r",
        b"main(){2147483648;}",
        "a.r:1: constant too large",
    )?;
    let longest = b"main(){abcdefghijklmnopqrstuvwxyz_1234;}";
    check_listing(&rt, "a.r", longest, LONGEST_NAME)?;
    let longer = b"main(){abcdefghijklmnopqrstuvwxyz_12345;}";
    check_fault(&rt, "a.r", longer, "a.r:1: name too long")
}

/// A file of 64 externals.
pub const EXTERNALS: &[&str] = &[
    "int a0, a1, a2, a3, a4, a5, a6, a7,",
    "    b0, b1, b2, b3, b4, b5, b6, b7,",
    "    c0, c1, c2, c3, c4, c5, c6, c7,",
    "    d0, d1, d2, d3, d4, d5, d6, d7,",
    "    e0, e1, e2, e3, e4, e5, e6, e7,",
    "    f0, f1, f2, f3, f4, f5, f6, f7,",
    "    g0, g1, g2, g3, g4, g5, g6, g7,",
    "    h0, h1, h2, h3, h4, h5, h6, h7;",
    "main(){}",
];

#[test]
fn externals_have_a_limit(rt: HostRuntime) -> Result<(), Fail> {
    let mut source = text_of(rt.alloc(), EXTERNALS)?;
    let first = &["File a.r", "Externals 64", "  0 a0", "  1 a1"];
    check_long_listing(&rt, &source, first, "    2 NOP")?;
    source.extend_from_slice(b"int i0;")?;
    check_fault(&rt, "a.r", &source, "a.r:10: too many variables")
}

/// Makes a source of parts, each a given number of times.
fn source_of(alloc: Global, parts: &[(&[u8], usize)]) -> Result<Vec<u8>, AllocError> {
    let mut source = Vec::new(alloc);
    for (bytes, times) in parts {
        for _ in 0..*times {
            source.extend_from_slice(bytes)?;
        }
    }
    Ok(source)
}

/// Makes `main(){((..1..));}` with the given number of pairs of brackets.
pub fn in_brackets(alloc: Global, pairs: usize) -> Result<Vec<u8>, AllocError> {
    let (opening, closing) = ((b"(".as_slice(), pairs), (b")".as_slice(), pairs));
    source_of(
        alloc,
        &[(b"main(){", 1), opening, (b"1", 1), closing, (b";}", 1)],
    )
}

#[test]
fn nesting_has_a_limit(rt: HostRuntime) -> Result<(), Fail> {
    check_listing(&rt, "a.r", &in_brackets(rt.alloc(), 63)?, ONE)?;
    let deep = in_brackets(rt.alloc(), 64)?;
    check_fault(&rt, "a.r", &deep, "a.r:1: nested too deeply")
}

/// Makes `main(){1;1;..}` with the given number of statements.
pub fn ones(alloc: Global, statements: usize) -> Result<Vec<u8>, AllocError> {
    source_of(alloc, &[(b"main(){", 1), (b"1;", statements), (b"}", 1)])
}

#[test]
fn code_has_a_limit(rt: HostRuntime) -> Result<(), Fail> {
    let first = &[
        "File a.r",
        "Externals 0",
        "Function 0 main vars 0 at 0",
        "Code 1999",
    ];
    check_long_listing(&rt, &ones(rt.alloc(), 998)?, first, " 1998 NOP")?;
    check_fault(&rt, "a.r", &ones(rt.alloc(), 999)?, "a.r:1: too much code")
}

/// Makes `main(){}` and spaces, of the given number of bytes in all.
pub fn spaced(alloc: Global, len: usize) -> Result<Vec<u8>, AllocError> {
    source_of(alloc, &[(b"main(){}", 1), (b" ", len.saturating_sub(8))])
}

#[test]
fn sources_have_a_limit(rt: HostRuntime) -> Result<(), Fail> {
    check_listing(&rt, "a.r", &spaced(rt.alloc(), 1_048_576)?, EMPTY_MAIN)?;
    let long = spaced(rt.alloc(), 1_048_577)?;
    check_fault(&rt, "a.r", &long, "a.r:1: source too long")
}
