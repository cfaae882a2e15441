//! The listing of a program whose trees were made first is the listing of the program made in one pass.

use crate::tests::checks::text_of;
use crate::tests::listing_tests::{EXTERNALS, LISTINGS, in_brackets, ones, spaced};
use code::{Maker, Program};
use grammar::{Pools, Profile};
use lang::{TreeMaker, parse};
use series::{MemorySink, put_listing};
use std::alloc::Global;
use std::process::Abort;
use std::test::Fail;
use tokens::MemoryFeed;

/// Lists a program with these names.
fn listed(alloc: Global, names: &Pools, program: &Program) -> Result<Vec<u8>, Fail> {
    let mut out = MemorySink::new(alloc);
    let _ = put_listing(&mut out, b"a.r", names, program);
    Ok(out.joined()?)
}

/// Lists a good source.
fn direct(alloc: Global, profile: Profile, source: &[u8]) -> Result<Vec<u8>, Fail> {
    let mut maker = Maker::new(profile);
    match parse(&mut MemoryFeed::new(source, 4096), &mut maker) {
        Ok(names) => listed(alloc, &names, &maker.finish(&names)),
        Err(_) => Err("the source has a fault".into()),
    }
}

/// Lists a good source, whose trees are made first and then replayed to the maker.
fn replayed(alloc: Global, profile: Profile, source: &[u8]) -> Result<Vec<u8>, Fail> {
    let mut trees = TreeMaker::new(alloc, profile);
    let Ok(names) = parse(&mut MemoryFeed::new(source, 4096), &mut trees) else {
        return Err("the source has a fault".into());
    };
    let mut maker = Maker::new(profile);
    match trees.replay(&mut maker) {
        Ok(()) => listed(alloc, &names, &maker.finish(&names)),
        Err(_) => Err("it is not replayed".into()),
    }
}

/// Sources besides those whose listings are known.
const OTHERS: &[&[u8]] = &[
    b"main(){while(1)cannon(0,0);}",
    b"main(){while(1);}",
    b"main(){0 && cannon(0,0);}",
    b"int n; main(){n=n+1; if(n==2) cannon(0,0);}",
    b"f(){f();} main(){f();}",
];

/// Compares the listing of a good source of a profile with that of its replayed trees.
fn check_replayed_by(
    rt: &(impl Abort + AllocGlobal),
    profile: Profile,
    source: &[u8],
) -> Result<(), Fail> {
    let wanted = direct(rt.alloc(), profile, source)?;
    let made = replayed(rt.alloc(), profile, source)?;
    assert_eq!(rt; made.as_slice(), wanted.as_slice());
    Ok(())
}

/// Compares them under both profiles.
fn check_replayed(rt: &(impl Abort + AllocGlobal), source: &[u8]) -> Result<(), Fail> {
    check_replayed_by(rt, Profile::first(), source)?;
    check_replayed_by(rt, Profile::second(), source)
}

#[test]
fn replayed_trees_have_the_same_listing(rt: HostRuntime) -> Result<(), Fail> {
    for (_, source, _) in LISTINGS {
        check_replayed(&rt, source)?;
    }
    for source in OTHERS {
        check_replayed(&rt, source)?;
    }
    Ok(())
}

#[test]
fn replayed_trees_at_the_limits_have_the_same_listing(rt: HostRuntime) -> Result<(), Fail> {
    check_replayed(&rt, b"main(){2147483647;}")?;
    check_replayed(&rt, b"main(){abcdefghijklmnopqrstuvwxyz_1234;}")?;
    check_replayed(&rt, &text_of(rt.alloc(), EXTERNALS)?)?;
    check_replayed(&rt, &in_brackets(rt.alloc(), 63)?)?;
    check_replayed(&rt, &ones(rt.alloc(), 998)?)?;
    check_replayed_by(&rt, Profile::second(), &ones(rt.alloc(), 1_998)?)?;
    check_replayed(&rt, &spaced(rt.alloc(), 1_048_576)?)
}
