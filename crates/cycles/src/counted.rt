//! What is counted.

use grammar::Intrinsic;

/// What is counted along a way through a program.
#[derive(Clone, Copy, PartialEq, Eq)]
pub enum Counted {
    /// Its cycles.
    Cycles,
    /// Its questions: the cycles in which an intrinsic function is asked.
    Questions,
    /// Its questions of one kind.
    QuestionsOf(Intrinsic),
}
