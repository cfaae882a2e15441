//! Streams that are written, as devices.

ghost use Rattle.std.specs.Prelude.{◌≡◌, ◌<◌, length, IfOk};
ghost use Rattle.sinks.specs.Puts.{CanFail, CountsSink, TakesPortion};
ghost use Rattle.sinks.specs.Streams.{AddsBytes, real_stream};

use crate::sink::Sink;
use std::io::Write;
use tokens::DeviceFault;

/// A stream that is written. Each error of a write is a failure, also an interrupted call and a write of no byte.
#[derive(Drop)]
pub struct StreamSink<W> {
    stream: W,
    failures: u64,
}

impl<W> StreamSink<W> {
    /// Makes the sink of a stream that has not failed.
    pub fn new(stream: W) -> StreamSink<W>
        ensures { result ≡ record { stream = stream; failures = 0 } }
    {
        StreamSink {
            stream,
            failures: 0,
        }
    }
}

impl<W: Write> Sink for StreamSink<W> {
    ghost written = { λ sink. real_stream sink.failures };

    fn put(&mut self, bytes: &[u8]) -> Result<usize, DeviceFault>
        requires nonempty { 0 < length bytes.now }
        requires countable { CanFail (real_stream self.old.failures) }
        ensures takes { IfOk result (TakesPortion (real_stream self.old.failures) (real_stream self.new.failures)
            bytes.now) }
        ensures count { CountsSink result (real_stream self.old.failures) (real_stream self.new.failures) }
        ensures bytes { AddsBytes result bytes.now (W.contents self.old.stream) (W.contents self.new.stream) }
    {
        match self.stream.write(bytes) {
            Ok(n) if n > 0 => Ok(n),
            _ => {
                self.failures += 1;
                Err(DeviceFault)
            }
        }
    }
}
