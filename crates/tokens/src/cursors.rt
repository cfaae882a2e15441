//! A cursor over the tokens of a device.

ghost use Rattle.std.specs.Prelude.{◌≡◌, ◌-◌, ◌^◌, ◌<◌, ◌≤◌, ◌∷◌, ℕ, List, Some, drop, false, IfOk, OnOk, OnErr};
ghost use Rattle.tokens.specs.Feed.{Counts};
ghost use Rattle.tokens.specs.Tokens.{tokens, is_last};
ghost use Rattle.tokens.specs.Cursors.{FitsToken};
ghost use Rattle.tokens.specs.Window.{MayHaveAsked, MayAsk, untouched};
ghost use Rattle.tokens.specs.declared.located_tokens.LocatedToken.{LocatedToken};
ghost use Rattle.tokens.specs.Cursors.{OpensCursor, AdvancesCursor, shown, bytes_taken, undecided_reach_of};

use crate::devices::{DeviceFault, Feed};
use crate::lexer::Lexer;
use crate::located_tokens::LocatedToken;
use std::marker::Model;

/// Reads the tokens of a device through a window of `WINDOW_BYTES` bytes. It holds the next token and the one
/// after it, and nothing more. The device is passed beside it at each call, and is asked for bytes only
/// if one of these two needs them.
#[derive(Drop)]
pub struct Cursor {
    lexer: Lexer,
    next: LocatedToken,
    after: LocatedToken,
}

impl Model for Cursor {
    ghost use Rattle.tokens.specs.Cursors.{Cursor};
    ghost use Rattle.tokens.specs.Cursors.{FitsToken};
    ghost use Rattle.tokens.specs.Window.{IsBounded};

    ghost Value = { Cursor };

    ghost view = { λ c. record { next = c.next; after = c.after; window = c.lexer.window } };

    ghost invariant = { λ c. FitsToken c.next.token × FitsToken c.after.token × IsBounded c.lexer.window };
}

impl Cursor {
    /// Makes a cursor that hasn't begun. It is large, and made where it stays.
    #[inline(always)]
    pub fn new() -> Cursor
        ensures { result.window ≡ untouched }
    {
        Cursor {
            lexer: Lexer::new(),
            next: LocatedToken::blank(),
            after: LocatedToken::blank(),
        }
    }

    /// Opens a cursor at the first token of a device's bytes. The only error is that of the device.
    pub fn open<F: Feed>(feed: &mut F) -> Result<Cursor, DeviceFault>
        requires countable { (F.device feed.old).account.failures < 2 ^ 64 - 1 }
        requires not_ended { (F.device feed.old).ended ≡ false }
        ensures opens { IfOk result (λ cursor.
            OpensCursor cursor (F.device feed.old).to_come (F.device feed.new).to_come (F.device feed.new).ended) }
        ensures stopped { OnErr result ((bytes : List ℕ) → (F.device feed.old).to_come ≡ Some bytes → (count : ℕ)
            × ((F.device feed.new).to_come ≡ Some (drop count bytes)) × (count ≤ undecided_reach_of (tokens bytes))) }
        ensures count { Counts result (F.device feed.old).account (F.device feed.new).account }
    {
        let mut cursor = Cursor::new();
        cursor.begin(feed)?;
        Ok(cursor)
    }

    /// Begins at the first token of a device's bytes, as `open` does, with a new cursor that stays where it is. After an
    /// `Err` the cursor can't be used any more.
    pub fn begin<F: Feed>(&mut self, feed: &mut F) -> Result<(), DeviceFault>
        requires new { self.old.window ≡ untouched }
        requires countable { (F.device feed.old).account.failures < 2 ^ 64 - 1 }
        requires not_ended { (F.device feed.old).ended ≡ false }
        ensures opens { OnOk result (
            OpensCursor self.new (F.device feed.old).to_come (F.device feed.new).to_come (F.device feed.new).ended) }
        ensures stopped { OnErr result ((bytes : List ℕ) → (F.device feed.old).to_come ≡ Some bytes → (count : ℕ)
            × ((F.device feed.new).to_come ≡ Some (drop count bytes)) × (count ≤ undecided_reach_of (tokens bytes))) }
        ensures count { Counts result (F.device feed.old).account (F.device feed.new).account }
    {
        self.lexer.read_token(&mut self.next, feed)?;
        self.after = self.next;
        if !self.next.token.is_last() {
            self.lexer.read_token(&mut self.after, feed)?;
        }
        Ok(())
    }

    /// Returns the next token.
    pub fn peek(&self) -> &LocatedToken
        ensures value { result.now ≡ self.now.next }
        ensures fits { FitsToken result.now.token }
    {
        &self.next
    }

    /// Returns the token after the next one. If the next is the last, there is none, and the result means nothing.
    pub fn after(&self) -> &LocatedToken
        ensures value { result.now ≡ self.now.after }
        ensures fits { FitsToken result.now.token }
    {
        &self.after
    }

    /// Goes past the next token. After an `Err`, which is the device's, the cursor can't be used any more.
    pub fn advance<F: Feed>(&mut self, feed: &mut F) -> Result<(), DeviceFault>
        requires not_last { is_last self.old.next.token ≡ false }
        requires ready { MayAsk self.old.window (F.device feed.old) }
        ensures next { self.new.next ≡ self.old.after }
        ensures advances { OnOk result
            (AdvancesCursor self.old self.new (F.device feed.old).to_come (F.device feed.new).to_come) }
        ensures stopped { OnErr result ((next : LocatedToken) (others : List LocatedToken)
            → shown self.old (F.device feed.old).to_come ≡ Some (next ∷ others) →
            bytes_taken self.new ≤ undecided_reach_of others) }
        ensures kept { MayHaveAsked result self.old.window self.new.window (F.device feed.old) (F.device feed.new) }
    {
        self.next = self.after;
        if !self.next.token.is_last() {
            self.lexer.read_token(&mut self.after, feed)?;
        }
        Ok(())
    }
}
