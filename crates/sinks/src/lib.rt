//! Devices that take bytes, and a pen that writes pieces of text on them.
#![tactic(auto)]

mod memory_sinks;
mod pen;
mod sink;
mod streams;
mod texts;

pub use memory_sinks::MemorySink;
pub use pen::{BUFFER_BYTES, Pen};
pub use sink::{Sink, put_all};
pub use streams::StreamSink;
pub use texts::file_name;
pub use tokens::DeviceFault;
