//! What reports a match, and the match that it watches.

ghost use Rattle.std.specs.Prelude.{◌≤◌, length};

use arena::MOST_ROBOTS;
use settings::Settings;
use tools::Fault;
use watching::{Pilot, Watcher, play};

/// A watcher that reports a match as it is played.
pub trait Teller: Watcher {
    /// Reports what comes after the last cycle of the match, and writes all that isn't written yet.
    fn finish(self, cycles: u32) -> Result<(), Fault>;
}

/// Plays the match of a wish, and writes the report of it.
pub fn tell<T: Teller>(
    mut teller: T,
    wish: &Settings<'_>,
    pilots: &mut [Pilot<'_>],
) -> Result<(), Fault>
    requires some { 2 ≤ length pilots.old }
    requires most { length pilots.old ≤ MOST_ROBOTS }
{
    let ending = play(pilots, &mut teller, wish.seed(), wish.first(), wish.limit());
    teller.finish(ending.cycles)
}
