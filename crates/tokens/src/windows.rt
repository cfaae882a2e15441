//! The window of fixed size through which a source is read.

ghost use Rattle.std.specs.Prelude.{◌≡◌, ◌+◌, ◌<◌, ◌≤◌, [], ◌==◌, length, take, slice_get, OnOk, OnErr, IfOk};
ghost use Rattle.std.specs.List.{count_by};
ghost use Rattle.tokens.specs.TokenLimits.{most_source_bytes};
ghost use Rattle.tokens.specs.WindowLimits.{window_bytes};
ghost use Rattle.tokens.specs.Source.{source};
ghost use Rattle.tokens.specs.Window.{MayHaveAsked, Splits, IsAtSameOffset, IsBounded, IsNextByte, MayAsk, SkipsBytes, Shows};
ghost use Rattle.tokens.specs.Window.{window_after, window_after_blanks, window_after_byte, window_after_plain, seen, untouched};

use crate::byte_spans::{LINE_FEED, NonBlankByte, StarByte, span_before, span_before_end};
use crate::characters::is_blank;
use crate::devices::{DeviceFault, Feed};
use crate::token_limits::{MOST_SOURCE_BYTES, WINDOW_BYTES};
use std::marker::Model;

/// What is known of the source after the bytes at hand.
#[derive(Clone, Copy, PartialEq, Eq)]
pub enum Beyond {
    /// Nothing yet: the device is to be asked.
    Unread,
    /// The source ends there.
    Nothing,
    /// The source goes on after the limit.
    TooMuch,
}

/// The bytes at hand of a source that is read from a device, in an array that is filled again once all of it was read.
#[derive(Drop)]
pub struct Window {
    bytes: [u8; WINDOW_BYTES],
    next: usize,
    filled: usize,
    start: u32,
    taken: u32,
    line: u32,
    beyond: Beyond,
}

impl Model for Window {
    ghost use Rattle.std.specs.Prelude.{◌+◌, slice_range};
    ghost use Rattle.tokens.specs.Window.{Window, IsWindow, window_of};

    ghost Value = { Window };

    ghost view = { λ w. window_of w.line (w.start + w.next) (slice_range w.bytes w.next w.filled) w.taken w.beyond };

    ghost invariant = { λ w. IsWindow w.next w.filled w.start w.taken w.line w.beyond };
}

impl Window {
    /// Makes a window at the start of a source, before anything is read.
    pub fn new() -> Self
        ensures { result ≡ untouched }
    {
        Window {
            bytes: [0; WINDOW_BYTES],
            next: 0,
            filled: 0,
            start: 0,
            taken: 0,
            line: 1,
            beyond: Beyond::Unread,
        }
    }

    /// Returns the line of the next byte, from 1.
    pub fn line(&self) -> u32
        ensures { result ≡ self.now.line }
    {
        self.line
    }

    /// Returns how many bytes of the source are before the next one.
    pub fn offset(&self) -> u32
        ensures value { result ≡ self.now.offset }
        ensures within { result ≤ most_source_bytes }
    {
        self.start + self.next as u32
    }

    /// Returns what is known of the source after the bytes at hand.
    pub fn beyond(&self) -> Beyond
        ensures { result ≡ self.now.beyond }
    {
        self.beyond
    }

    /// Returns the next byte, or `None` at the end. The device is asked only if no byte is at hand.
    #[inline(always)]
    pub fn peek<F: Feed>(&mut self, feed: &mut F) -> Result<Option<u8>, DeviceFault>
        requires ready { MayAsk self.old (F.device feed.old) }
        ensures next { IfOk result (λ first. IsNextByte first self.new) }
        ensures seen { OnOk result (seen self.new (F.device feed.new).to_come ≡ seen self.old (F.device feed.old).to_come) }
        ensures offset { IsAtSameOffset self.old self.new }
        ensures failed { OnErr result (self.new.taken ≡ self.new.offset) }
        ensures kept { MayHaveAsked result self.old self.new (F.device feed.old) (F.device feed.new) }
    {
        if self.next < self.filled {
            return Ok(Some(self.bytes[self.next]));
        }
        self.refill(feed)?;
        Ok(self.first_at_hand())
    }

    /// Goes past the next byte.
    #[inline(always)]
    pub fn skip_byte(&mut self)
        requires { 0 < length self.old.at_hand }
        ensures value { self.new ≡ window_after_byte self.old }
        ensures forward { self.new.offset ≡ self.old.offset + 1 }
        ensures kept { SkipsBytes self.old self.new }
    {
        if self.bytes[self.next] == LINE_FEED {
            self.line += 1;
        }
        self.next += 1;
    }

    /// Returns the bytes at hand.
    #[inline(always)]
    pub fn at_hand(&self) -> &[u8]
        ensures value { result.now ≡ self.now.at_hand }
        ensures few { length result.now ≤ window_bytes }
    {
        &self.bytes[self.next..self.filled]
    }

    /// Goes past `count` bytes at hand, none of which ends a line.
    #[inline(always)]
    pub fn skip_in_line(&mut self, count: usize)
        requires within { count ≤ length self.old.at_hand }
        requires in_line { count_by (λ b. b == 10) (take count self.old.at_hand) ≡ 0 }
        ensures value { self.new ≡ window_after count self.old }
        ensures forward { self.new.offset ≡ self.old.offset + count }
        ensures kept { SkipsBytes self.old self.new }
    {
        self.next += count;
    }

    /// Goes past the bytes at hand that are before the next `*`.
    pub fn skip_to_star(&mut self)
        ensures value { self.new ≡ window_after_plain self.old }
        ensures kept { SkipsBytes self.old self.new }
    {
        let (count, lines) = span_before::<StarByte>(&self.bytes[self.next..self.filled]);
        self.next += count;
        self.line += lines;
    }

    /// Goes past the blanks at hand.
    pub fn skip_blanks_at_hand(&mut self)
        ensures value { self.new ≡ window_after_blanks self.old }
        ensures kept { SkipsBytes self.old self.new }
    {
        match self.first_at_hand() {
            Some(b) if is_blank(b) => {}
            _ => return,
        }
        let (count, lines) = span_before::<NonBlankByte>(&self.bytes[self.next..self.filled]);
        self.next += count;
        self.line += lines;
    }

    /// Returns the next byte, if one is at hand.
    #[inline(always)]
    pub fn first_at_hand(&self) -> Option<u8>
        ensures value { result ≡ slice_get self.now.at_hand 0 }
        ensures bounded { IsBounded self.now }
    {
        if self.next < self.filled {
            Some(self.bytes[self.next])
        } else {
            None
        }
    }

    /// Asks the device for the next bytes, if it has not ended. This is rare, so it is not inlined.
    #[inline(never)]
    fn refill<F: Feed>(&mut self, feed: &mut F) -> Result<(), DeviceFault>
        requires empty { self.old.at_hand ≡ [] }
        requires ready { MayAsk self.old (F.device feed.old) }
        ensures shows { OnOk result (Shows self.old self.new (F.device feed.old).to_come (F.device feed.new).to_come) }
        ensures offset { IsAtSameOffset self.old self.new }
        ensures failed { OnErr result (self.new.taken ≡ self.new.offset) }
        ensures kept { MayHaveAsked result self.old self.new (F.device feed.old) (F.device feed.new) }
    {
        if self.beyond != Beyond::Unread {
            return Ok(());
        }
        let room = (MOST_SOURCE_BYTES - self.taken) as usize;
        let size = WINDOW_BYTES.min(room + 1);
        let count = feed.fill(&mut self.bytes[..size])?;
        let (kept, beyond) = split_source(&self.bytes[..count], room);
        self.start += self.filled as u32;
        self.taken += count as u32;
        self.next = 0;
        self.filled = kept;
        self.beyond = beyond;
        Ok(())
    }
}

/// Returns how many of these bytes belong to the source, which has room for `room` more, and what follows them.
#[tactic(auto, using(crate::proofs::SourceLemmas::cutting))]
fn split_source(bytes: &[u8], room: usize) -> (usize, Beyond)
    requires room { length bytes.now ≤ room + 1 }
    requires few { length bytes.now ≤ window_bytes }
    ensures { Splits bytes.now room result.0 result.1 }
{
    let length = source_len(bytes);
    if length < bytes.len() {
        (length, Beyond::Nothing)
    } else if length > room {
        (room, Beyond::TooMuch)
    } else if length == 0 {
        (0, Beyond::Nothing)
    } else {
        (length, Beyond::Unread)
    }
}

/// Returns how many bytes there are before the first that ends a source.
#[tactic(auto, using(crate::proofs::SpanLemmas::ends_source))]
fn source_len(bytes: &[u8]) -> usize
    requires { length bytes.now ≤ window_bytes }
    ensures { result ≡ length (source bytes.now) }
{
    span_before_end(bytes)
}
