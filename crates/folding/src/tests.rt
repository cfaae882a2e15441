//! Small robots, whose folded code was worked out by hand.

use crate::compiled;
use crate::listing::folded;
use code::Profile;
use std::alloc::Global;
use std::test::Fail;

/// Returns the folded code of a source.
fn code_of(alloc: Global, profile: Profile, source: &[u8]) -> Result<String, Fail> {
    let Ok((program, folds)) = compiled(source, profile) else {
        return Err(Fail::from("it doesn't compile"));
    };
    Ok(folded(alloc, program.instructions(), &folds)?)
}

#[test]
fn a_side_that_is_not_known_stays(rt: HostRuntime) -> Result<(), Fail> {
    let source = b"main(){ int a; a = a + 1 + 2; }";
    let wanted = "    0 FETCH L0
    1 CONST 1
    2 BINOP +
    3 CONST 2
    4 BINOP +
    5 STORE L0 =
    6 CHOP
    7 CONST 0
    8 RETSUB
    9 NOP
";
    assert_eq!(rt;
        code_of(rt.alloc(), Profile::first(), source)?.as_str(),
        wanted
    );
    Ok(())
}

#[test]
fn unary_operators_are_operators_on_constants(rt: HostRuntime) -> Result<(), Fail> {
    let source = b"main(){ return -(2 + 3) + !4 + ~0; }";
    let wanted = "    0 CONST -6
    1 RETSUB
    2 CONST 0
    3 RETSUB
    4 NOP
";
    assert_eq!(rt;
        code_of(rt.alloc(), Profile::first(), source)?.as_str(),
        wanted
    );
    Ok(())
}

#[test]
fn a_right_side_that_may_be_left_out_is_folded(rt: HostRuntime) -> Result<(), Fail> {
    let source = b"main(){ 1 && 2 + 3; }";
    let wanted = "    0 CONST 1
    1 BRANCH 6
    2 CONST 5
    3 TRUTH
    4 CONST 0
    5 BRANCH 7
    6 CONST 0
    7 CHOP
    8 CONST 0
    9 RETSUB
   10 NOP
";
    assert_eq!(rt;
        code_of(rt.alloc(), Profile::second(), source)?.as_str(),
        wanted
    );
    Ok(())
}

#[test]
fn more_arguments_than_are_kept(rt: HostRuntime) -> Result<(), Fail> {
    let alloc = rt.alloc();
    let mut source = String::from_str(alloc, "main(){ damage(1 + 1")?;
    for _ in 0..69 {
        source.push_str(", 1 + 1")?;
    }
    source.push_str("); }")?;
    let text = code_of(alloc, Profile::first(), source.as_bytes())?;
    assert_eq!(&rt; text.lines().count(), 76);
    assert_eq!(&rt;
        text.lines()
            .filter(|line| line.ends_with("CONST 2"))
            .count(),
        70
    );
    Ok(())
}
