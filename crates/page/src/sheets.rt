//! Sheets: what a run writes, kept in memory that the caller lends.

ghost use Rattle.std.specs.Prelude.{◌≡◌, ◌<◌, ◌≤◌, ◌+◌, ◌++◌, [], length, true, false, IfOk, OnErr};
ghost use Rattle.sinks.specs.Puts.{CanFail, TakesPortion, failed_once_more};
ghost use Rattle.page.specs.Sheets.{Adds, IsFull, bytes_of, refused, text_on, told, written_of};

use series::Sink;
use tokens::DeviceFault;

/// The most bytes of a frame.
pub const FRAME_BYTES: usize = 255;

/// The frames of a sheet.
pub const FRAMES: usize = 32_768;

/// A piece of text of at most 255 bytes: the first `size` of `bytes`.
#[repr(C)]
#[derive(Clone, Copy)]
pub struct SheetBlock {
    /// How many bytes it has.
    pub size: u8,
    /// The bytes, and what lies after them.
    pub bytes: [u8; FRAME_BYTES],
}

impl SheetBlock {
    /// Has these bytes alone.
    fn hold(&mut self, bytes: &[u8])
        requires { length bytes.now ≤ FRAME_BYTES }
        ensures { bytes_of self.new ≡ bytes.now }
    {
        self.size = 0;
        let _ = self.add(bytes);
    }

    /// Adds bytes behind those that it has. Answers whether it had room for all of them.
    fn add(&mut self, bytes: &[u8]) -> bool
        ensures added { result ≡ true → bytes_of self.new ≡ bytes_of self.old ++ bytes.now }
        ensures left { result ≡ false → self.new ≡ self.old }
        ensures fits { self.old.size + length bytes.now ≤ FRAME_BYTES → result ≡ true }
    {
        let begin = self.size as usize;
        if bytes.len() > FRAME_BYTES - begin {
            return false;
        }
        let end = begin + bytes.len();
        self.bytes[begin..end].copy_from_slice(bytes);
        self.size = end as u8;
        true
    }
}

/// A text in memory that the caller lends: its first `used` frames. It has at most 32,768.
#[repr(C)]
pub struct Sheet {
    /// How many frames the text has.
    pub used: u64,
    /// How many writes failed since all frames were used.
    pub failures: u64,
    /// The frames of the text, and those that are free.
    pub frames: [SheetBlock; FRAMES],
}

impl Sheet {
    /// Makes the sheet blank.
    pub fn clear(&mut self)
        ensures text { told self.new ≡ [] }
        ensures room { refused self.new ≡ 0 }
    {
        self.used = 0;
        self.failures = 0;
    }

    /// Returns how many writes the sheet refused, since it is full.
    pub(crate) fn refused(&self) -> u64
        ensures { result ≡ refused self.now }
    {
        if self.used >= FRAMES as u64 {
            self.failures
        } else {
            0
        }
    }

    /// Reports whether the sheet is full, and refused a write.
    pub(crate) fn is_full(&self) -> bool
        ensures full { result ≡ true → IsFull self.now }
        ensures room { result ≡ false → refused self.now ≡ 0 }
    {
        self.refused() > 0
    }

    /// Adds bytes, up to 255: to the last frame if that has room. A sheet that was full takes no more, and so do no
    /// bytes.
    pub(crate) fn add(&mut self, bytes: &[u8])
        ensures { length bytes.now ≤ FRAME_BYTES → Adds self.old self.new bytes.now }
    {
        if !bytes.is_empty() && !self.is_full() && !self.fill(bytes) {
            let _ = self.put_frame(bytes);
        }
    }

    /// Adds bytes to the last frame. Answers whether that had room for all of them.
    fn fill(&mut self, bytes: &[u8]) -> bool
        ensures failures { self.new.failures ≡ self.old.failures }
        ensures used { self.new.used ≡ self.old.used }
        ensures filled { result ≡ true → text_on self.new ≡ text_on self.old ++ bytes.now }
        ensures refused { result ≡ false → text_on self.new ≡ text_on self.old }
    {
        let used = self.used as usize;
        if used == 0 || used > FRAMES {
            return false;
        }
        self.frames[used - 1].add(bytes)
    }

    /// Puts bytes into a frame of their own, up to 255 of them; fails if no frame is free.
    fn put_frame(&mut self, bytes: &[u8]) -> Result<usize, DeviceFault>
        requires nonempty { 0 < length bytes.now }
        requires countable { CanFail (written_of self.old) }
        ensures takes { IfOk result (TakesPortion (written_of self.old) (written_of self.new) bytes.now) }
        ensures whole { length bytes.now ≤ FRAME_BYTES
            → IfOk result (λ _. text_on self.new ≡ text_on self.old ++ bytes.now) }
        ensures fails { OnErr result (written_of self.new ≡ failed_once_more (written_of self.old)) }
        ensures full { OnErr result (IsFull self.new) }
    {
        let used = self.used as usize;
        if used >= FRAMES {
            self.failures += 1;
            return Err(DeviceFault);
        }
        let size = bytes.len().min(FRAME_BYTES);
        self.frames[used].hold(&bytes[..size]);
        self.used += 1;
        self.failures = 0;
        Ok(size)
    }
}

impl Sink for Sheet {
    ghost written = { written_of };

    fn put(&mut self, bytes: &[u8]) -> Result<usize, DeviceFault> {
        self.put_frame(bytes)
    }
}
