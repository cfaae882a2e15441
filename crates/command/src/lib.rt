//! The program over given words, files and streams: what it reads and writes, its own lines and its status.
#![tactic(auto)]

mod endings;
mod openers;
mod process;
mod running;

pub use endings::Ending;
pub use openers::{Disk, OpenFault, Opener};
pub use process::run_process;
pub use running::run_words;
pub use sinks::StreamSink;
pub use tokens::{FileFeed, KnownFeed};
