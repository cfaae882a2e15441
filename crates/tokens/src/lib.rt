//! Reads the bytes of a source from a device and returns its tokens one by one, through a window of fixed size.
#![tactic(auto)]

mod byte_spans;
mod characters;
mod cursors;
mod devices;
mod file_feeds;
mod keywords;
pub mod laws;
mod lexer;
mod located_tokens;
mod memory_feeds;
mod names;
mod punctuators;
mod token_limits;
mod windows;

pub use cursors::Cursor;
pub use devices::{DeviceFault, Feed};
pub use file_feeds::{FileFeed, KnownFeed};
pub use located_tokens::{Keyword, LexicalError, LocatedToken, Punctuator, Token};
pub use memory_feeds::MemoryFeed;
pub use names::Name;
pub use token_limits::{MOST_CONSTANT_VALUE, MOST_NAME_BYTES, MOST_SOURCE_BYTES, WINDOW_BYTES};
