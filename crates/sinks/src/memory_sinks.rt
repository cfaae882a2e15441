//! A sink in memory.

ghost use Rattle.std.specs.Prelude.{◌≡◌, ℕ, ◌+◌, ◌-◌, ◌^◌, ◌<◌, ◌≤◌, List, [], ◌∷◌, ◌++◌, map, option_map, length, take, Some, None, IfOk, OnOk, OnErr, IfSome, OnSome, min};
ghost use Rattle.std.specs.List.{concat};
ghost use Rattle.sinks.specs.MemorySinks.{MemorySink, size_of_next, written_of, failing_then};
ghost use Rattle.sinks.specs.Portions.{TakesWhole, and_portions};

use crate::sink::Sink;
use std::alloc::{AllocError, Global};
use std::marker::Model;
use tokens::DeviceFault;

/// A sink in memory that keeps each portion. It can be limited to a number of bytes for each call, or in all, or be
/// made to fail at one call. It fails too if memory is refused.
#[derive(Debug, Drop)]
pub struct MemorySink {
    portions: Vec<Vec<u8>>,
    most: Option<usize>,
    room: Option<usize>,
    failing: Option<u64>,
    failures: u64,
}

impl Model for MemorySink {
    ghost Value = { MemorySink };

    ghost view = { λ r. record {
      portions = map (λ v. v.items) r.portions.items;
      most = r.most;
      room = r.room;
      failing = r.failing;
      failures = r.failures;
    } };
}

impl MemorySink {
    /// Makes a sink that takes all that it is given.
    pub fn new(alloc: Global) -> MemorySink
        ensures { result ≡ record { portions = []; most = None; room = None; failing = None; failures = 0 } }
    {
        MemorySink {
            portions: Vec::new(alloc),
            most: None,
            room: None,
            failing: None,
            failures: 0,
        }
    }

    /// Limits each call to at most `most` bytes.
    pub fn with_most(self, most: usize) -> MemorySink
        ensures { result ≡ record self { most = Some most } }
    {
        MemorySink {
            most: Some(most),
            ..self
        }
    }

    /// Lets it take `room` further bytes, and then fail.
    pub fn with_room(self, room: usize) -> MemorySink
        ensures { result ≡ record self { room = Some room } }
    {
        MemorySink {
            room: Some(room),
            ..self
        }
    }

    /// Lets `calls` further calls succeed, and the one after them fail.
    pub fn failing_after(self, calls: u64) -> MemorySink
        ensures { result ≡ record self { failing = Some calls } }
    {
        MemorySink {
            failing: Some(calls),
            ..self
        }
    }

    /// Returns the portions that it took.
    pub fn portions(&self) -> &[Vec<u8>]
        ensures { map (λ v. v.items) result.now ≡ self.now.portions }
    {
        self.portions.as_slice()
    }

    /// Returns the bytes that it took.
    pub fn joined(&self) -> Result<Vec<u8>, AllocError>
        ensures { IfOk result (λ bytes. bytes.items ≡ concat self.now.portions) }
    {
        let portions = self.portions();
        let mut joined = Vec::new(*self.portions.allocator());
        for portion in portions {
            joined.extend_from_slice(portion.as_slice())?;
        }
        Ok(joined)
    }

    /// Returns how often it failed.
    pub fn failures(&self) -> u64
        ensures { result ≡ self.now.failures }
    {
        self.failures
    }

    /// Returns how many of `len` bytes the next call takes, which is none if it fails, and counts the call.
    fn next_size(&mut self, len: usize) -> usize
        ensures size { result ≡ size_of_next self.old len }
        ensures failing { self.new ≡ record self.old { failing = failing_then self.old.failing } }
    {
        let failing = self.failing;
        self.failing = failing.and_then(|calls| calls.checked_sub(1));
        if failing == Some(0) {
            0
        } else {
            len.min(self.most.unwrap_or(len))
                .min(self.room.unwrap_or(len))
        }
    }

    /// Keeps a portion.
    fn keep_portion(&mut self, portion: &[u8]) -> Result<(), AllocError>
        ensures ok { OnOk result (self.new ≡ record self.old {
          portions = self.old.portions ++ portion.now ∷ [];
          room = option_map (λ room. room - length portion.now) self.old.room;
        }) }
        ensures err { OnErr result (self.new ≡ self.old) }
    {
        let kept = Vec::from_slice(*self.portions.allocator(), portion)?;
        self.portions.push(kept)?;
        self.room = self.room.map(|room| room.saturating_sub(portion.len()));
        Ok(())
    }
}

impl Sink for MemorySink {
    ghost written = { written_of };

    fn put(&mut self, bytes: &[u8]) -> Result<usize, DeviceFault> {
        let n = self.next_size(bytes.len());
        if n == 0 || self.keep_portion(&bytes[..n]).is_err() {
            self.failures += 1;
            return Err(DeviceFault);
        }
        Ok(n)
    }
}
