//! Devices that take bytes.

ghost use Rattle.std.specs.Prelude.{◌≡◌, ◌<◌, length, IfOk, OnErr};
ghost use Rattle.sinks.specs.Portions.{SinkState};
ghost use Rattle.sinks.specs.Puts.{CanFail, Puts, TakesPortion, failed_once_more};

use tokens::DeviceFault;

/// A device that takes bytes.
///
/// `written` says how many calls failed, and, if the device's contents are known, which portions were taken so far, one
/// for each call that succeeded. Joined in order they are the bytes that it took. It says too whether the device takes
/// each put whole.
pub trait Sink {
    ghost written: { Self → SinkState };

    /// Takes a nonempty prefix of `bytes` as one portion and answers its length, or fails and takes nothing.
    fn put(&mut self, bytes: &[u8]) -> Result<usize, DeviceFault>
        requires nonempty { 0 < length bytes.now }
        requires countable { CanFail (written self.old) }
        ensures takes { IfOk result (TakesPortion (written self.old) (written self.new) bytes.now) }
        ensures fails { OnErr result (written self.new ≡ failed_once_more (written self.old)) };
}

/// Writes all of `bytes`, by as many calls as the sink needs; fails if the sink does.
pub fn put_all<S: Sink>(sink: &mut S, bytes: &[u8]) -> Result<(), DeviceFault>
    requires countable { CanFail (S.written sink.old) }
    ensures { Puts result (S.written sink.old) (S.written sink.new) bytes.now }
{
    let mut rest = bytes;
    while !rest.is_empty() {
        let n = sink.put(rest)?;
        rest = &rest[n..];
    }
    Ok(())
}
