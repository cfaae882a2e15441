//! Subjects: what is reported of robots and their match.

use crate::stretches::Stretch;
use crate::targets::Target;

/// What is reported of the robots of an order, and of the first match that it asks for.
#[derive(Clone, Copy)]
pub enum Subject<'a> {
    /// Its film, of a stretch or of all of it, without the given number of its first rows.
    Film(Option<Stretch>, u32),
    /// Where a robot is after a cycle.
    Moment(&'a Target),
    /// The first or the last cycle after which a robot is at one of some instructions.
    Run(&'a Target),
    /// Where the instructions of the robots come from.
    Places,
}
