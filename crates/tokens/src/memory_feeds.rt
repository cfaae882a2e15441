//! Devices in memory.

ghost use Rattle.std.specs.Prelude.{◌≡◌, ◌<◌, Some, false, length};
ghost use Rattle.tokens.specs.Feed.{Counts, MayRead, Reads, gives_none};
ghost use Rattle.tokens.specs.MemoryFeeds.{GivesPiece, device_of, memory_feed_of};

use crate::devices::{DeviceFault, Feed};
use std::marker::Model;

/// A device of given bytes, which gives them in pieces of at most a given size, and may fail from some read on.
#[derive(Drop)]
pub struct MemoryFeed<'a> {
    bytes: &'a [u8],
    offset: usize,
    most: usize,
    reads_left: usize,
    failures: u64,
    ended: bool,
}

impl<'a> Model for MemoryFeed<'a> {
    ghost use Rattle.std.specs.Prelude.{ℕ, ◌<◌, ◌≤◌, drop, length};
    ghost use Rattle.tokens.specs.MemoryFeeds.{MemoryFeed, memory_feed_of};

    ghost Value = { MemoryFeed };

    ghost view = { λ p. memory_feed_of (drop p.offset p.bytes.now) p.offset p.most p.failures p.reads_left p.ended };

    ghost invariant = { λ p. (p.offset ≤ length p.bytes.now) × (0 < p.most) };
}

impl<'a> MemoryFeed<'a> {
    /// Makes a device of these bytes, which gives at most `most` at a read.
    pub fn new(bytes: &'a [u8], most: usize) -> Self
        requires { 0 < most }
        ensures { result ≡ memory_feed_of bytes.now 0 most 0 usize.MAX false }
    {
        MemoryFeed::failing_at(bytes, most, usize::MAX)
    }

    /// Makes the same device, but each read from this one on fails, counted from 0.
    pub fn failing_at(bytes: &'a [u8], most: usize, read: usize) -> Self
        requires { 0 < most }
        ensures { result ≡ memory_feed_of bytes.now 0 most 0 read false }
    {
        MemoryFeed {
            bytes,
            offset: 0,
            most,
            reads_left: read,
            failures: 0,
            ended: false,
        }
    }

    /// Returns how many bytes it has given.
    pub fn taken(&self) -> usize
        ensures { result ≡ self.now.taken }
    {
        self.offset
    }

    /// Returns how many reads have failed.
    pub fn failures(&self) -> u64
        ensures { result ≡ self.now.failures }
    {
        self.failures
    }
}

impl Feed for MemoryFeed<'_> {
    ghost device = { device_of };

    fn fill(&mut self, buf: &mut [u8]) -> Result<usize, DeviceFault>
        requires nonempty { 0 < length buf.old }
        requires ready { MayRead (device_of self.old) }
        ensures reads { Reads result (length buf.old) (Some self.old.to_come) (Some self.new.to_come) buf.new }
        ensures count { Counts result (device_of self.old).account (device_of self.new).account }
        ensures ended { self.new.ended ≡ gives_none result }
        ensures piece { GivesPiece result self.old self.new }
    {
        if self.reads_left == 0 {
            self.failures += 1;
            return Err(DeviceFault);
        }
        self.reads_left -= 1;
        let rest = &self.bytes[self.offset..];
        let count = rest.len().min(buf.len()).min(self.most);
        buf[..count].copy_from_slice(&rest[..count]);
        self.offset += count;
        self.ended = count == 0;
        Ok(count)
    }
}
