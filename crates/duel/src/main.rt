//! An example of the library: two robots on a field, driven by hand. The first stands and shoots to the east, the
//! second drives north out of the bursts.
#![tactic(auto)]

mod duel;

use crate::duel::duel;
use std::io;

/// Plays the duel, and prints what happens in it.
fn main(rt: HostRuntime) -> io::Result<()> {
    duel(&rt)
}
