//! How a step of a series ends, and how a run does.

/// What stopped a series.
#[derive(Clone, Copy, Debug, PartialEq, Eq)]
pub enum SeriesFault {
    /// Writing failed.
    Write,
}

/// What a step of a series did.
#[derive(Clone, Copy, Debug, PartialEq, Eq)]
pub enum Step {
    /// Played the match of this number and wrote its report.
    Played(u32),
    /// Nothing, since all matches were played.
    Over,
}

/// How a run ends that nothing stopped.
#[derive(Clone, Copy, Debug, PartialEq, Eq)]
pub enum Status {
    /// Each file was good.
    Done,
    /// A file had a fault.
    Faulty,
}

/// What stopped a run.
#[derive(Clone, Copy, Debug, PartialEq, Eq)]
pub enum RunFault {
    /// Reading the file with this index failed.
    Read(usize),
    /// Writing failed.
    Write,
    /// Memory was refused.
    Memory,
}
