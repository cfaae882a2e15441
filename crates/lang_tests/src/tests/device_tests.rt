//! Devices: how much is asked of them, and what their failures become.

use crate::tests::checks::{SIZES, parsed, source_fault};
use crate::tests::sources::Part::{Once, Times};
use crate::tests::sources::source_of;
use lang::{Code, ParseFault};
use std::process::Abort;
use std::test::Fail;
use tokens::MemoryFeed;

#[test]
fn a_faulty_source_is_not_read_to_its_end(rt: HostRuntime) -> Result<(), Fail> {
    let parts = [Once(b"main(){ break;"), Times(b" ", 10_000)];
    let source = source_of(rt.alloc(), &parts)?;
    let wanted = Some(source_fault(1, Code::ReservedWord));
    for most in SIZES {
        let outcome = parsed(rt.alloc(), MemoryFeed::new(&source, most));
        assert_eq!(rt; outcome.fault(), wanted, "{most} bytes at once");
        // the source up to the token after `break`, and a window
        let taken = outcome.taken;
        assert!(rt; taken <= 14 + 4_096, "{taken} of {most} bytes at once");
    }
    Ok(())
}

#[test]
fn a_builder_has_what_stood_before_a_failed_read(rt: HostRuntime) -> Result<(), Fail> {
    let source = b"f(){1;} main(){";
    for (most, reads) in [(15, 1), (5, 3), (1, 15)] {
        let outcome = parsed(rt.alloc(), MemoryFeed::failing_at(source, most, reads));
        assert_eq!(rt; outcome.fault(), Some(ParseFault::Device));
        assert_eq!(rt; outcome.failures, 1);
        let functions = format!(in rt.alloc(); "{:?}", outcome.trees.functions())?;
        assert_eq!(rt;
            functions.as_str(),
            "[Function { number: 0, parameters: 0, variables: 0, body: [ExpressionStatement(Constant(1))] }]"
        );
    }
    Ok(())
}

#[test]
fn a_decided_fault_wins_over_a_failed_read(rt: HostRuntime) -> Result<(), Fail> {
    let decided = b"main(){ break; ";
    let outcome = parsed(rt.alloc(), MemoryFeed::failing_at(decided, 15, 1));
    assert_eq!(rt; outcome.fault(), Some(source_fault(1, Code::ReservedWord)));
    assert_eq!(rt; outcome.failures, 0);
    // the name may go on
    let undecided = b"main(){ break";
    let outcome = parsed(rt.alloc(), MemoryFeed::failing_at(undecided, 13, 1));
    assert_eq!(rt; outcome.fault(), Some(ParseFault::Device));
    Ok(())
}

#[test]
fn a_bad_character_wins_over_a_failed_read(rt: HostRuntime) -> Result<(), Fail> {
    let outcome = parsed(rt.alloc(), MemoryFeed::failing_at(b"$", 1, 1));
    assert_eq!(rt; outcome.fault(), Some(source_fault(1, Code::BadCharacter)));
    assert_eq!(rt; outcome.failures, 0);
    Ok(())
}

#[test]
fn the_end_is_asked_for_once(rt: HostRuntime) -> Result<(), Fail> {
    let outcome = parsed(rt.alloc(), MemoryFeed::failing_at(b"", 1, 1));
    assert_eq!(rt;
        outcome.fault(),
        Some(source_fault(1, Code::NoMainFunction))
    );
    assert_eq!(rt; outcome.failures, 0);
    Ok(())
}

#[test]
fn each_read_fails_in_turn(rt: HostRuntime) -> Result<(), Fail> {
    let source = b"int x; f(a) int a; {x=a;} main(){f(1); if(x) while(x-=1);}";
    for reads in 0..source.len() + 1 {
        let outcome = parsed(rt.alloc(), MemoryFeed::failing_at(source, 1, reads));
        assert_eq!(rt;
            outcome.fault(),
            Some(ParseFault::Device),
            "at read {reads}"
        );
        assert_eq!(rt; outcome.taken, reads);
    }
    Ok(())
}

#[test]
fn nothing_is_asked_behind_byte_26(rt: HostRuntime) -> Result<(), Fail> {
    let outcome = parsed(rt.alloc(), MemoryFeed::failing_at(b"main(){}\x1a", 1, 9));
    assert_eq!(rt; outcome.fault(), None);
    Ok(())
}
