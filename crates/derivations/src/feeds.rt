//! Sources in memory as devices.

ghost use Rattle.std.specs.Prelude.{◌≡◌, [], Some, false};

use tokens::{DeviceFault, Feed};

/// A source that is read, which never fails: the bytes still to come, and whether a read gave none.
#[derive(Drop)]
pub(crate) struct SourceFeed<'a> {
    rest: &'a [u8],
    ended: bool,
}

impl<'a> SourceFeed<'a> {
    /// Makes the device of these bytes.
    pub(crate) fn new(bytes: &'a [u8]) -> SourceFeed<'a>
        ensures bytes { result.rest.now ≡ bytes.now }
        ensures ended { result.ended ≡ false }
    {
        SourceFeed {
            rest: bytes,
            ended: false,
        }
    }
}

impl Feed for SourceFeed<'_> {
    ghost device = { λ feed. record {
      account = record { device = 0; failures = 0 };
      to_come = Some feed.rest.now;
      ended = feed.ended;
    } };

    fn fill(&mut self, buf: &mut [u8]) -> Result<usize, DeviceFault> {
        let count = self.rest.len().min(buf.len());
        buf[..count].copy_from_slice(&self.rest[..count]);
        self.rest = &self.rest[count..];
        self.ended = count == 0;
        Ok(count)
    }
}
