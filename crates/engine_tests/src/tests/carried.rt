//! Cycles that are carried to an operation: an operation counts at most 255 of them, and one of its own counts more.

use crate::tests::made::{operations_of, program_of};
use code::Profile;
use std::alloc::{AllocError, Global};
use std::test::Fail;

/// Makes a source of the given number of statements that do nothing in two cycles each, and of another one after them.
fn carrying(alloc: Global, times: u16, last: &str) -> Result<String, AllocError> {
    let mut source = String::new(alloc);
    source.push_str("f(){} main(){int a;")?;
    for _ in 0..times {
        source.push_str("1;")?;
    }
    source.push_str(last)?;
    source.push_str("}")?;
    Ok(source)
}

// To the `BRANCH` of the `if` its `FETCH` is carried, to the `FCALL` its `FRAME`, and to the `RETSUB` of main its
// `CONST`: with the statements before them 251 to 261 cycles.
#[test]
fn any_number_of_carried_cycles_is_counted(rt: HostRuntime) -> Result<(), Fail> {
    for last in ["if(a);", "f();", ""] {
        for times in 125..131 {
            let source = carrying(rt.alloc(), times, last)?;
            let program = program_of(Profile::first(), source.as_bytes())?;
            let is_translated = !operations_of(&program).is_empty();
            assert_eq!(&rt; is_translated, true, "{last} after {times} statements");
        }
    }
    Ok(())
}
