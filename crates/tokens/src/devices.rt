//! Devices that give bytes.

ghost use Rattle.std.specs.Prelude.{◌≡◌, ◌<◌, length};
ghost use Rattle.tokens.specs.Feed.{Counts, MayRead, Reads, gives_none};
ghost use Rattle.tokens.specs.Device.{Device};

/// A read that failed.
#[derive(Clone, Copy, Debug, PartialEq, Eq)]
pub struct DeviceFault;

/// A device that gives bytes, in pieces of any size.
pub trait Feed {
    /// Which device it is, by a number that it keeps, and how often a read has failed; the bytes still to come, if they
    /// are known; and whether a read has given no byte. Such a device has ended, and is not read again.
    ghost device: { Self → Device };

    /// Puts the next bytes at the beginning of `buf`, and returns how many: 0 only at the end.
    /// After an `Err` no byte was taken.
    fn fill(&mut self, buf: &mut [u8]) -> Result<usize, DeviceFault>
        requires nonempty { 0 < length buf.old }
        requires ready { MayRead (device self.old) }
        ensures reads { Reads result (length buf.old) (device self.old).to_come (device self.new).to_come buf.new }
        ensures count { Counts result (device self.old).account (device self.new).account }
        ensures ended { (device self.new).ended ≡ gives_none result };
}
