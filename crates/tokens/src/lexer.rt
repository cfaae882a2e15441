//! The tokens of a source that is read through a window.

ghost use Rattle.std.specs.Prelude.{◌≡◌, ◌≢◌, ◌∷◌, [], ◌-◌, ◌<◌, ◌≤◌, ℕ, List, Some, true, false, slice_get};
ghost use Rattle.std.specs.Prelude.{IfOk, IfSome, OnOk, OnErr};
ghost use Rattle.tokens.specs.Characters.{is_blank, is_digit};
ghost use Rattle.tokens.specs.InputElement.{name_token};
ghost use Rattle.tokens.specs.Tokens.{located_tokens, last_located_token};
ghost use Rattle.tokens.specs.Cursors.{FitsToken};
ghost use Rattle.tokens.specs.Window.{MayHaveAsked, IsNextByte, MayAsk, ahead, untouched};
ghost use Rattle.tokens.specs.Lexing.{BeginsConstant, BeginsToken, FindsToken, LeavesUnread, ReadsSlash, ReadsToken};
ghost use Rattle.tokens.specs.Lexing.{StopsWithin, after_comment, in_comment, in_constant, in_name, in_punctuator};
ghost use Rattle.tokens.specs.Lexing.{name_going_on, to_read, value_token};

use crate::characters::{is_blank, is_digit, is_letter, is_name_byte};
use crate::devices::{DeviceFault, Feed};
use crate::located_tokens::{Keyword, LexicalError, LocatedToken, Punctuator, Token};
use crate::names::Name;
use crate::token_limits::MOST_CONSTANT_VALUE;
use crate::windows::{Beyond, Window};

/// Reads the tokens of a source, through a window over its bytes.
#[derive(Drop)]
pub struct Lexer {
    window: Window,
}

// Each call here that has the device as an argument may ask it: it needs `MayAsk`, and `MayHaveAsked` says what it
// leaves. A call that reads a token has one more clause, on the token or on what it leaves if it fails: `ReadsToken` if
// it starts before the token, `FindsToken` if it starts inside of it. One that relies on a byte that was seen requires
// it. What is not inlined is kept out of the functions that read most tokens, so that these need no stack frame.
impl Lexer {
    /// Makes a lexer at the start of a source.
    pub fn new() -> Self
        ensures { result.window ≡ untouched }
    {
        Lexer {
            window: Window::new(),
        }
    }

    /// Reads the next token into `here`. After an `Err` the token before is still there.
    #[inline(never)]
    pub fn read_token<F: Feed>(
        &mut self,
        here: &mut LocatedToken,
        feed: &mut F,
    ) -> Result<(), DeviceFault>
        requires ready { MayAsk self.old.window (F.device feed.old) }
        ensures reads { ReadsToken result self.old.window self.new.window (F.device feed.old) (F.device feed.new)
            here.old here.new }
        ensures kept { MayHaveAsked result self.old.window self.new.window (F.device feed.old) (F.device feed.new) }
    {
        match self.window.first_at_hand() {
            Some(b) if !is_blank(b) && b != b'/' => self.read_begun_token(b, here, feed),
            _ => self.read_from_blank_or_slash(here, feed),
        }
    }

    /// Reads the next token if the next byte is a blank or a `/`, or isn't in the window. Most blanks stand alone: then
    /// one byte is skipped, and no loop is entered.
    #[inline(never)]
    fn read_from_blank_or_slash<F: Feed>(
        &mut self,
        here: &mut LocatedToken,
        feed: &mut F,
    ) -> Result<(), DeviceFault>
        requires ready { MayAsk self.old.window (F.device feed.old) }
        ensures reads { ReadsToken result self.old.window self.new.window (F.device feed.old) (F.device feed.new)
            here.old here.new }
        ensures kept { MayHaveAsked result self.old.window self.new.window (F.device feed.old) (F.device feed.new) }
    {
        match self.window.first_at_hand() {
            Some(blank) if is_blank(blank) => {
                self.window.skip_byte();
                match self.window.first_at_hand() {
                    Some(b) if !is_blank(b) && b != b'/' => self.read_begun_token(b, here, feed),
                    _ => self.read_after_blanks(here, feed),
                }
            }
            _ => self.read_after_blanks(here, feed),
        }
    }

    /// Skips blanks and comments, as many as there are, and reads the token after them.
    #[inline(never)]
    fn read_after_blanks<F: Feed>(
        &mut self,
        here: &mut LocatedToken,
        feed: &mut F,
    ) -> Result<(), DeviceFault>
        requires ready { MayAsk self.old.window (F.device feed.old) }
        ensures reads { ReadsToken result self.old.window self.new.window (F.device feed.old) (F.device feed.new)
            here.old here.new }
        ensures kept { MayHaveAsked result self.old.window self.new.window (F.device feed.old) (F.device feed.new) }
    {
        loop {
            match self.skip_blanks(feed)? {
                None => {
                    self.put_source_end(here);
                    return Ok(());
                }
                Some(b'/') => {
                    if self.read_slash_or_comment(here, feed)? {
                        return Ok(());
                    }
                }
                Some(b) => return self.read_begun_token(b, here, feed),
            }
        }
    }

    /// Skips blanks. Answers the byte after them, or `None` at the end.
    #[inline(always)]
    fn skip_blanks<F: Feed>(&mut self, feed: &mut F) -> Result<Option<u8>, DeviceFault>
        requires ready { MayAsk self.old.window (F.device feed.old) }
        ensures tokens { OnOk result (to_read located_tokens self.new.window (F.device feed.new).to_come
            ≡ to_read located_tokens self.old.window (F.device feed.old).to_come) }
        ensures next { IfOk result (λ first. IsNextByte first self.new.window) }
        ensures no_blank { IfOk result (λ first. IfSome first (λ b. is_blank b ≡ false)) }
        ensures stopped { OnErr result (StopsWithin located_tokens self.old.window
            self.new.window (F.device feed.old).to_come) }
        ensures kept { MayHaveAsked result self.old.window self.new.window (F.device feed.old) (F.device feed.new) }
    {
        loop {
            self.window.skip_blanks_at_hand();
            match self.window.peek(feed)? {
                // The first test alone shows that most bytes are no blank.
                Some(b) if b <= b' ' && is_blank(b) => self.window.skip_byte(),
                first => return Ok(first),
            }
        }
    }

    /// At a `/`: skips a comment, or reads the token that begins with it. Answers whether there was a token.
    fn read_slash_or_comment<F: Feed>(
        &mut self,
        here: &mut LocatedToken,
        feed: &mut F,
    ) -> Result<bool, DeviceFault>
        requires ready { MayAsk self.old.window (F.device feed.old) }
        requires slash { slice_get self.old.window.at_hand 0 ≡ Some 47 }
        ensures past { IfOk result (λ found. ReadsSlash found self.old.window
            self.new.window (F.device feed.old).to_come (F.device feed.new).to_come
            here.old here.new) }
        ensures forward { self.old.window.offset < self.new.window.offset }
        ensures stopped { OnErr result (LeavesUnread located_tokens self.old.window self.new.window
            (F.device feed.old).to_come here.old here.new) }
        ensures kept { MayHaveAsked result self.old.window self.new.window (F.device feed.old) (F.device feed.new) }
    {
        let line = self.window.line();
        self.window.skip_byte();
        if self.window.peek(feed)? != Some(b'*') {
            self.read_punctuator(here, feed, Punctuator::Slash)?;
            return Ok(true);
        }
        self.window.skip_byte();
        if self.skip_comment(feed)? {
            Ok(false)
        } else {
            self.put_unclosed_comment(line, here);
            Ok(true)
        }
    }

    /// Goes past the `*/` of a comment, from inside of it. Answers whether there was one.
    fn skip_comment<F: Feed>(&mut self, feed: &mut F) -> Result<bool, DeviceFault>
        requires ready { MayAsk self.old.window (F.device feed.old) }
        ensures tokens { IfOk result (λ closed. (line : ℕ)
            → to_read (after_comment closed line) self.new.window (F.device feed.new).to_come
            ≡ to_read (in_comment line) self.old.window (F.device feed.old).to_come) }
        ensures ended { IfOk result (λ closed. closed ≡ false → self.new.window.beyond ≢ Beyond.Unread) }
        ensures stopped { OnErr result ((line : ℕ)
            → StopsWithin (in_comment line) self.old.window self.new.window (F.device feed.old).to_come) }
        ensures kept { MayHaveAsked result self.old.window self.new.window (F.device feed.old) (F.device feed.new) }
    {
        loop {
            self.window.skip_to_star();
            match self.window.peek(feed)? {
                None => return Ok(false),
                Some(b'*') => {
                    self.window.skip_byte();
                    if self.window.peek(feed)? == Some(b'/') {
                        self.window.skip_byte();
                        return Ok(true);
                    }
                }
                Some(_) => self.window.skip_byte(),
            }
        }
    }

    /// Reads the token that begins with this byte, which is the next one, no blank and no `/`.
    #[inline(always)]
    fn read_begun_token<F: Feed>(
        &mut self,
        first: u8,
        here: &mut LocatedToken,
        feed: &mut F,
    ) -> Result<(), DeviceFault>
        requires ready { MayAsk self.old.window (F.device feed.old) }
        requires begins { BeginsToken first self.old.window }
        ensures reads { ReadsToken result self.old.window self.new.window (F.device feed.old) (F.device feed.new)
            here.old here.new }
        ensures kept { MayHaveAsked result self.old.window self.new.window (F.device feed.old) (F.device feed.new) }
    {
        self.window.skip_byte();
        if is_letter(first) {
            self.read_name(here, feed, first)
        } else if let Some(punctuator) = Punctuator::of_single_byte(first) {
            *here = self.token_ending_here(Token::Punctuator(punctuator));
            Ok(())
        } else if is_digit(first) {
            self.read_constant(here, feed, first)
        } else if let Some(punctuator) = Punctuator::of_byte(first) {
            if punctuator.ends_before(self.window.first_at_hand()) {
                *here = self.token_ending_here(Token::Punctuator(punctuator));
                return Ok(());
            }
            self.read_punctuator(here, feed, punctuator)
        } else {
            *here = self.token_ending_here(Token::Fault(LexicalError::BadCharacter));
            Ok(())
        }
    }

    /// Reads the name whose first byte was passed. Many names are a single letter.
    #[inline(always)]
    fn read_name<F: Feed>(
        &mut self,
        here: &mut LocatedToken,
        feed: &mut F,
        first: u8,
    ) -> Result<(), DeviceFault>
        requires ready { MayAsk self.old.window (F.device feed.old) }
        ensures finds { FindsToken result (in_name (first ∷ []) false) self.old.window self.new.window
            (F.device feed.old) (F.device feed.new) here.old here.new }
        ensures kept { MayHaveAsked result self.old.window self.new.window (F.device feed.old) (F.device feed.new) }
    {
        match self.window.first_at_hand() {
            Some(b) if !is_name_byte(b) => {
                self.put_name_token(&Name::from_byte(first), false, here);
                Ok(())
            }
            _ => self.read_longer_name(here, feed, first),
        }
    }

    /// Reads the name whose first byte was passed, if it has more bytes or may go on past the window.
    #[inline(never)]
    fn read_longer_name<F: Feed>(
        &mut self,
        here: &mut LocatedToken,
        feed: &mut F,
        first: u8,
    ) -> Result<(), DeviceFault>
        requires ready { MayAsk self.old.window (F.device feed.old) }
        ensures finds { FindsToken result (in_name (first ∷ []) false) self.old.window self.new.window
            (F.device feed.old) (F.device feed.new) here.old here.new }
        ensures kept { MayHaveAsked result self.old.window self.new.window (F.device feed.old) (F.device feed.new) }
    {
        let mut name = Name::new();
        if name.take_bytes(first, self.window.at_hand()) {
            self.window.skip_in_line(name.len() - 1);
            self.put_name_token(&name, false, here);
            return Ok(());
        }
        self.read_name_bytewise(here, feed, first)
    }

    /// Reads the name whose first byte was passed, byte by byte: it may go on past the window, or has
    /// `MOST_NAME_BYTES` bytes or more.
    #[inline(never)]
    fn read_name_bytewise<F: Feed>(
        &mut self,
        here: &mut LocatedToken,
        feed: &mut F,
        first: u8,
    ) -> Result<(), DeviceFault>
        requires ready { MayAsk self.old.window (F.device feed.old) }
        ensures finds { FindsToken result (in_name (first ∷ []) false) self.old.window self.new.window
            (F.device feed.old) (F.device feed.new) here.old here.new }
        ensures kept { MayHaveAsked result self.old.window self.new.window (F.device feed.old) (F.device feed.new) }
    {
        let mut name = Name::new();
        name.push(first);
        let mut too_long = false;
        loop {
            match self.window.peek(feed)? {
                Some(b) if is_name_byte(b) => {
                    if name.is_full() {
                        too_long = true;
                    } else {
                        name.push(b);
                    }
                    self.window.skip_byte();
                }
                _ => {
                    self.put_name_token(&name, too_long, here);
                    return Ok(());
                }
            }
        }
    }

    /// Reads the constant whose first digit was passed.
    #[inline(never)]
    fn read_constant<F: Feed>(
        &mut self,
        here: &mut LocatedToken,
        feed: &mut F,
        first: u8,
    ) -> Result<(), DeviceFault>
        requires ready { MayAsk self.old.window (F.device feed.old) }
        requires digit { is_digit first ≡ true }
        ensures finds { FindsToken result (in_constant (first - 48)) self.old.window self.new.window
            (F.device feed.old) (F.device feed.new) here.old here.new }
        ensures kept { MayHaveAsked result self.old.window self.new.window (F.device feed.old) (F.device feed.new) }
    {
        if let Some((value, count)) = short_constant(first, self.window.at_hand()) {
            self.window.skip_in_line(count);
            *here = self.token_ending_here(Token::Constant(value));
            return Ok(());
        }
        self.read_constant_bytewise(here, feed, first)
    }

    /// Reads the constant whose first digit was passed, byte by byte: it may go on past the window, or has more than
    /// nine digits, leading zeros aside.
    #[inline(never)]
    fn read_constant_bytewise<F: Feed>(
        &mut self,
        here: &mut LocatedToken,
        feed: &mut F,
        first: u8,
    ) -> Result<(), DeviceFault>
        requires ready { MayAsk self.old.window (F.device feed.old) }
        requires digit { is_digit first ≡ true }
        ensures finds { FindsToken result (in_constant (first - 48)) self.old.window self.new.window
            (F.device feed.old) (F.device feed.new) here.old here.new }
        ensures kept { MayHaveAsked result self.old.window self.new.window (F.device feed.old) (F.device feed.new) }
    {
        let mut value = u64::from(first - b'0');
        loop {
            match self.window.peek(feed)? {
                Some(b) if is_digit(b) => {
                    value = (10 * value + u64::from(b - b'0')).min(TOO_LARGE);
                    self.window.skip_byte();
                }
                _ => {
                    *here = self.token_ending_here(constant_token(value));
                    return Ok(());
                }
            }
        }
    }

    /// Reads the longest punctuator that begins with this one, which was passed.
    #[inline(never)]
    fn read_punctuator<F: Feed>(
        &mut self,
        here: &mut LocatedToken,
        feed: &mut F,
        mut punctuator: Punctuator,
    ) -> Result<(), DeviceFault>
        requires ready { MayAsk self.old.window (F.device feed.old) }
        ensures finds { FindsToken result (in_punctuator punctuator) self.old.window self.new.window
            (F.device feed.old) (F.device feed.new) here.old here.new }
        ensures kept { MayHaveAsked result self.old.window self.new.window (F.device feed.old) (F.device feed.new) }
    {
        loop {
            let next = self.window.peek(feed)?;
            match punctuator.extended(next) {
                Some(longer) => {
                    punctuator = longer;
                    self.window.skip_byte();
                }
                None => {
                    *here = self.token_ending_here(Token::Punctuator(punctuator));
                    return Ok(());
                }
            }
        }
    }

    /// Puts the token of a whole name here. If it is too long, some of its bytes were left out.
    #[inline(always)]
    fn put_name_token(&self, name: &Name, is_too_long: bool, here: &mut LocatedToken)
        ensures value { here.new ≡ record {
          token = name_going_on name.now is_too_long [];
          line = self.now.window.line;
          end = self.now.window.offset;
        } }
        ensures fits { FitsToken here.new.token }
    {
        if is_too_long {
            *here = self.token_ending_here(Token::Fault(LexicalError::NameTooLong));
        } else if Keyword::may_be(name.as_bytes()) {
            self.put_name_or_word(name, here);
        } else {
            *here = self.token_ending_here(Token::Name(*name));
        }
    }

    /// Puts a name here, or the keyword that it is.
    #[inline(never)]
    fn put_name_or_word(&self, name: &Name, here: &mut LocatedToken)
        ensures value { here.new ≡ record {
          token = name_token name.now;
          line = self.now.window.line;
          end = self.now.window.offset;
        } }
        ensures fits { FitsToken here.new.token }
    {
        if let Some(word) = Keyword::of_name(name.as_bytes()) {
            *here = self.token_ending_here(Token::Keyword(word));
        } else {
            *here = self.token_ending_here(Token::Name(*name));
        }
    }

    /// Makes a token that ends before the next byte, on the same line.
    #[inline(always)]
    fn token_ending_here(&self, token: Token) -> LocatedToken
        ensures { result ≡ record { token = token; line = self.now.window.line; end = self.now.window.offset } }
    {
        LocatedToken {
            token,
            line: self.window.line(),
            end: self.window.offset(),
        }
    }

    /// Puts the end of the source here.
    #[inline(never)]
    fn put_source_end(&self, here: &mut LocatedToken)
        requires { self.now.window.beyond ≢ Beyond.Unread }
        ensures value { (to_come : List ℕ) → here.new
            ≡ last_located_token Token.End self.now.window.line (ahead self.now.window to_come) }
        ensures reached { self.now.window.offset ≤ here.new.end }
    {
        *here = self.last_token(Token::End, self.window.line());
    }

    /// Puts the fault of a comment here that began on this line and is not closed.
    #[inline(never)]
    fn put_unclosed_comment(&self, line: u32, here: &mut LocatedToken)
        requires { self.now.window.beyond ≢ Beyond.Unread }
        ensures value { (to_come : List ℕ) → here.new
            ≡ last_located_token (Token.Fault LexicalError.CommentNotClosed) line (ahead self.now.window to_come) }
        ensures reached { self.now.window.offset ≤ here.new.end }
    {
        *here = self.last_token(Token::Fault(LexicalError::CommentNotClosed), line);
    }

    /// Makes the last token, at the end of what can be read: this one, unless the source is too long.
    fn last_token(&self, token: Token, line: u32) -> LocatedToken
        requires { self.now.window.beyond ≢ Beyond.Unread }
        ensures value { (to_come : List ℕ) → result ≡ last_located_token token line (ahead self.now.window to_come) }
        ensures reached { self.now.window.offset ≤ result.end }
    {
        if self.window.beyond() == Beyond::TooMuch {
            LocatedToken {
                token: Token::Fault(LexicalError::SourceTooLong),
                line: self.window.line(),
                end: self.window.offset() + 1,
            }
        } else {
            LocatedToken {
                token,
                line,
                end: self.window.offset(),
            }
        }
    }
}

/// The greatest value of eight digits. With one digit more a value is still within the limit of a constant.
const LARGEST_OF_EIGHT_DIGITS: u32 = 99_999_999;

/// The value that represents all those above the greatest constant.
const TOO_LARGE: u64 = MOST_CONSTANT_VALUE as u64 + 1;

/// Returns the value of a constant that begins with this digit and ends within these bytes, and how many of them it
/// has. It is `None` for one of more than nine digits, leading zeros aside.
#[inline(always)]
fn short_constant(first: u8, rest: &[u8]) -> Option<(u32, usize)>
    requires digit { is_digit first ≡ true }
    ensures { IfSome result (λ begun. BeginsConstant first rest.now begun.0 begun.1) }
{
    let mut value = u32::from(first - b'0');
    for (i, b) in rest.iter().enumerate() {
        if !is_digit(*b) {
            return Some((value, i));
        }
        if value > LARGEST_OF_EIGHT_DIGITS {
            return None;
        }
        value = 10 * value + u32::from(*b - b'0');
    }
    None
}

/// Makes the token of a constant of this value.
fn constant_token(value: u64) -> Token
    ensures token { result ≡ value_token value }
    ensures fits { FitsToken result }
{
    if value < TOO_LARGE {
        Token::Constant(value as u32)
    } else {
        Token::Fault(LexicalError::ConstantTooLarge)
    }
}
