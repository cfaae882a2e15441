//! Builders: the trees that are reported to another builder, and what their refusals become.

use crate::tests::checks::source_fault;
use crate::tests::refuser::Refuser;
use lang::{BuildFault, Code, ParseFault, Profile, TreeMaker, parse};
use std::alloc::Global;
use std::process::Abort;
use std::test::Fail;
use tokens::MemoryFeed;

/// Sources with each form of the language.
const SOURCES: &[&[u8]] = &[
    b"main(){}",
    b"main(){1 + 2;}",
    b"main(){ x = a+++b; }",
    b"d(x,y) int x,y; {return(x*x+y*y);} main(){d(3);}",
    b"main(){if(a) if(b) c; else d;}",
    b"int x; f(){x=1;return 1;} main(){x+=f(); if(x==2) cannon(0,0); while(1);}",
    b"f(a){if(-a || !a && ~a) {--a;} else return;} main(){while(f(scan(1, 2), b--)) {;}}",
];

#[test]
fn trees_are_reported_to_another_builder(rt: HostRuntime) -> Result<(), Fail> {
    for source in SOURCES {
        let mut trees = TreeMaker::new(rt.alloc(), Profile::first());
        parse(&mut MemoryFeed::new(source, 4_096), &mut trees)?;
        let mut others = TreeMaker::new(rt.alloc(), Profile::first());
        trees.replay(&mut others)?;
        let made = format!(in rt.alloc(); "{:?}", trees.functions())?;
        let again = format!(in rt.alloc(); "{:?}", others.functions())?;
        assert_eq!(rt; made.as_str(), again.as_str());
    }
    Ok(())
}

/// Returns the refusal of a parse into a builder that takes `actions` actions, if there is one.
fn refusal(actions: usize) -> Option<ParseFault> {
    let mut builder = Refuser { left: actions };
    parse(&mut MemoryFeed::new(b"main(){1;}", 4_096), &mut builder).err()
}

/// Returns the same for the trees that are replayed to it.
fn refusal_of_trees(alloc: Global, actions: usize) -> Result<Option<BuildFault>, ParseFault> {
    let mut trees = TreeMaker::new(alloc, Profile::first());
    parse(&mut MemoryFeed::new(b"main(){1;}", 4_096), &mut trees)?;
    Ok(trees.replay(&mut Refuser { left: actions }).err())
}

#[test]
fn a_refusal_of_the_builder_is_answered(rt: HostRuntime) -> Result<(), Fail> {
    // `BeginFunction`, `PushConstant`, `Chop`, `PushConstant` and `GiveBack`; then comes `EndFunction`
    for actions in 0..5 {
        assert_eq!(rt; refusal(actions), Some(ParseFault::Memory));
        assert_eq!(rt;
            refusal_of_trees(rt.alloc(), actions)?,
            Some(BuildFault::Memory)
        );
    }
    assert_eq!(rt; refusal(5), Some(source_fault(1, Code::TooMuchCode)));
    assert_eq!(rt; refusal_of_trees(rt.alloc(), 5)?, Some(BuildFault::Full));
    Ok(())
}
