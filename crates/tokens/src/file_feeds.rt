//! Files that are read, as devices.

ghost use Rattle.std.specs.Prelude.{◌≡◌, ◌≢◌, ◌<◌, ◌≤◌, None, false, length, IfOk};
ghost use Rattle.tokens.specs.Feed.{Counts, MayRead, gives_none};
ghost use Rattle.tokens.specs.FileFeeds.{TakesFrom, file_device, real_account};

use crate::devices::{DeviceFault, Feed};
use std::io::Read;
use std::marker::Model;

/// A file that is read. Each error of a read is a failure, an interrupted call too.
#[derive(Drop)]
pub struct FileFeed<F> {
    file: F,
    failures: u64,
    ended: bool,
}

impl<F> FileFeed<F> {
    /// Makes the feed of a file that has not failed, and not ended.
    pub fn new(file: F) -> FileFeed<F>
        ensures { result ≡ record { file = file; failures = 0; ended = false } }
    {
        FileFeed {
            file,
            failures: 0,
            ended: false,
        }
    }
}

impl<F: Read> Feed for FileFeed<F> {
    ghost device = { λ feed. file_device feed.failures None feed.ended };

    fn fill(&mut self, buf: &mut [u8]) -> Result<usize, DeviceFault>
        requires nonempty { 0 < length buf.old }
        requires ready { MayRead (file_device self.old.failures None self.old.ended) }
        ensures within { IfOk result (λ n. n ≤ length buf.old) }
        ensures count { Counts result (real_account self.old.failures) (real_account self.new.failures) }
        ensures bytes { TakesFrom result buf.new (F.remaining self.old.file) (F.remaining self.new.file) }
        ensures ended { self.new.ended ≡ gives_none result }
    {
        match self.file.read(buf) {
            Ok(n) => {
                self.ended = n == 0;
                Ok(n)
            }
            Err(_) => {
                self.failures += 1;
                Err(DeviceFault)
            }
        }
    }
}

/// A `FileFeed` of a file whose bytes are known, such as bytes in memory that are read as a file. A run over such files
/// has all that is promised of known contents.
#[derive(Drop)]
pub struct KnownFeed<F: Read> {
    feed: FileFeed<F>,
}

impl<F: Read> Model for KnownFeed<F> {
    ghost use Rattle.std.specs.Prelude.{◌≢◌, None};
    ghost use Rattle.tokens.specs.declared.file_feeds.FileFeed.{FileFeed};

    ghost Value = { FileFeed F };

    ghost view = { λ known. known.feed };

    ghost invariant = { λ known. F.remaining known.feed.file ≢ None };
}

impl<F: Read> KnownFeed<F> {
    /// Makes the feed of a file of known bytes that has not failed, and not ended.
    pub fn new(file: F) -> KnownFeed<F>
        requires known { F.remaining file ≢ None }
        ensures { result ≡ record { file = file; failures = 0; ended = false } }
    {
        KnownFeed {
            feed: FileFeed::new(file),
        }
    }
}

impl<F: Read> Feed for KnownFeed<F> {
    ghost device = { λ known. file_device known.failures (F.remaining known.file) known.ended };

    fn fill(&mut self, buf: &mut [u8]) -> Result<usize, DeviceFault> {
        self.feed.fill(buf)
    }
}
