//! Refused requests of memory: `rt try --test --fail-alloc N` refuses the Nth request of each test.

use lang::{BuildFault, ParseFault, Profile, TreeMaker, parse};
use tokens::MemoryFeed;

/// A source with a tree of each kind that asks for memory.
const SOURCE: &[u8] = b"f(){} main(){ x = -a && f(1); if(x) 2; else while(x) return 3; }";

/// Checks that whatever request is refused, the answer is `Memory`; and if none is, all functions are there.
#[test]
fn a_refused_request_is_answered(rt: HostRuntime) {
    let mut trees = TreeMaker::new(rt.alloc(), Profile::first());
    if let Err(fault) = parse(&mut MemoryFeed::new(SOURCE, 4_096), &mut trees) {
        assert_eq!(rt; fault, ParseFault::Memory);
        return;
    }
    assert_eq!(rt; trees.functions().len(), 2);
    let mut others = TreeMaker::new(rt.alloc(), Profile::first());
    if let Err(fault) = trees.replay(&mut others) {
        assert_eq!(rt; fault, BuildFault::Memory);
        return;
    }
    assert_eq!(rt; others.functions().len(), 2);
}
