//! A pen that writes one piece of the output from its fragments.

ghost use Rattle.std.specs.Prelude.{◌≡◌, ℕ, ◌+◌, ◌-◌, ◌^◌, ◌<◌, ◌≤◌, List, [], ◌∷◌, ◌++◌, length, OnOk, OnErr, true, false};
ghost use Rattle.sinks.specs.Portions.{SinkState};
ghost use Rattle.sinks.specs.Puts.{Puts};
ghost use Rattle.sinks.specs.Pens.{Pen, new_pen, MayFail, PutsSoFar, WritesSoFar, Adds};

use crate::sink::{Sink, put_all};
use arrayvec::ArrayVec;
use std::marker::Model;
use tokens::DeviceFault;

/// The bytes of a pen's buffer.
pub const BUFFER_BYTES: usize = 512;

/// Gathers the fragments of one piece in a buffer, and puts the buffer's bytes on a sink when it is full.
///
/// A failure is kept until `finish` answers it: after it nothing more is put. The buffer is emptied at the piece's end,
/// so no write mixes two pieces. Each call takes the same sink.
pub struct Pen {
    buffer: ArrayVec<u8, BUFFER_BYTES>,
    failed: bool,
}

impl Model for Pen {
    ghost Value = { Pen };

    ghost view = { λ pen. record { buffer = pen.buffer.items; failed = pen.failed } };
}

impl Pen {
    /// Makes a pen at the beginning of a piece.
    pub fn new() -> Pen
        ensures blank { result ≡ new_pen }
        ensures text { (now : SinkState) → WritesSoFar now now result [] }
    {
        Pen {
            buffer: ArrayVec::new(),
            failed: false,
        }
    }

    /// Adds a fragment of any length to the piece.
    pub fn add<S: Sink>(&mut self, sink: &mut S, bytes: &[u8])
        requires { MayFail self.old (S.written sink.old) }
        ensures countable { MayFail self.new (S.written sink.new) }
        ensures text { Adds (S.written sink.old) self.old (S.written sink.new) self.new bytes.now }
    {
        if bytes.len() > self.buffer.remaining_capacity() {
            self.flush_buffer(sink);
        }
        if bytes.len() > BUFFER_BYTES {
            self.put_unbuffered(sink, bytes);
        } else if !self.failed {
            let _ = self.buffer.try_extend_from_slice(bytes);
        }
    }

    /// Adds a byte to the piece.
    #[inline(always)]
    pub fn add_byte<S: Sink>(&mut self, sink: &mut S, byte: u8)
        requires { MayFail self.old (S.written sink.old) }
        ensures countable { MayFail self.new (S.written sink.new) }
        ensures text { Adds (S.written sink.old) self.old (S.written sink.new) self.new (byte ∷ []) }
    {
        if self.buffer.remaining_capacity() == 0 {
            self.flush_buffer(sink);
        }
        if !self.failed {
            self.buffer.push(byte);
        }
    }

    /// Puts the buffer's bytes and empties it.
    fn flush_buffer<S: Sink>(&mut self, sink: &mut S)
        requires { MayFail self.old (S.written sink.old) }
        ensures countable { MayFail self.new (S.written sink.new) }
        ensures text { (before : SinkState) (text : List ℕ)
            → PutsSoFar before (S.written sink.old) self.old text
            → PutsSoFar before (S.written sink.new) self.new text }
        ensures empty { self.new.failed ≡ false → self.new.buffer ≡ [] }
    {
        if !self.failed {
            self.failed = put_all(sink, self.buffer.as_slice()).is_err();
            self.buffer.clear();
        }
    }

    /// Puts a fragment that is longer than the buffer, which is empty, straight on the sink.
    fn put_unbuffered<S: Sink>(&mut self, sink: &mut S, bytes: &[u8])
        requires countable { MayFail self.old (S.written sink.old) }
        requires empty { self.old.failed ≡ false → self.old.buffer ≡ [] }
        ensures countable { MayFail self.new (S.written sink.new) }
        ensures text { (before : SinkState) (text : List ℕ)
            → PutsSoFar before (S.written sink.old) self.old text
            → PutsSoFar before (S.written sink.new) self.new (text ++ bytes.now) }
    {
        if !self.failed {
            self.failed = put_all(sink, bytes).is_err();
        }
    }

    /// Ends the piece: puts what is in the buffer, and answers whether the sink took the whole piece.
    pub fn finish<S: Sink>(self, sink: &mut S) -> Result<(), DeviceFault>
        requires { MayFail self (S.written sink.old) }
        ensures { (before : SinkState) (text : List ℕ)
            → WritesSoFar before (S.written sink.old) self text
            → Puts result before (S.written sink.new) text }
    {
        let Pen { buffer, failed } = self;
        if failed {
            return Err(DeviceFault);
        }
        put_all(sink, buffer.as_slice())
    }
}
