//! The tokens of a source in memory, each with its line, its column and its bytes.

ghost use Rattle.std.specs.Prelude.{◌≡◌, ◌≤◌, ◌==◌, ◌&&◌, IfSome, false, length, min, slice_range};
ghost use Rattle.tokens.specs.Characters.{is_blank};
ghost use Rattle.tokens.specs.InputElement.{input_element, up_to_close};
ghost use Rattle.derivations.specs.Columns.{blank_length, blanks, column_after, column_at, column_past, is_of_byte, start_of};
ghost use Rattle.derivations.specs.TokenCounts.{HasMoreTokens};

use arrayvec::ArrayVec;
use std::alloc::{AllocError, Global};
use tokens::{
    Cursor, LexicalError, LocatedToken, MOST_SOURCE_BYTES, MemoryFeed, Token, WINDOW_BYTES,
};

/// The most tokens that are found without asking for memory.
pub const MOST_TOKENS: usize = 16_384;

/// A token of a source in memory, with its position.
#[derive(Clone, Copy)]
pub struct Located {
    /// What it is.
    pub token: Token,
    /// The line that it begins on, from 1.
    pub line: u32,
    /// The column of its first byte, in bytes, from 1.
    pub column: u32,
    /// How many bytes of the source are before it.
    pub start: u32,
    /// How many bytes of the source there are up to its last one.
    pub end: u32,
}

impl Located {
    ghost use Rattle.std.specs.Prelude.{◌≡◌};

    /// Returns the offset of its first byte.
    pub fn start(&self) -> usize
        ensures { result ≡ self.now.start }
    {
        self.start as usize
    }

    /// Returns the offset behind its last byte.
    pub fn end(&self) -> usize
        ensures { result ≡ self.now.end }
    {
        self.end as usize
    }
}

impl Default for Located {
    ghost use Rattle.std.specs.Prelude.{◌≡◌};
    ghost use Rattle.tokens.specs.declared.located_tokens.Token.TheVariants.{End};

    ghost is_default = { λ located. located.token ≡ End };

    fn default() -> Located {
        Located {
            token: Token::End,
            line: 1,
            column: 1,
            start: 0,
            end: 0,
        }
    }
}

/// Finds all tokens of a source, the last one included: the end, or a lexical error. Memory is asked for once, for as
/// many as there are. The only error is that it is refused.
pub fn locate(alloc: Global, source: &[u8]) -> Result<Vec<Located>, AllocError> {
    let mut tokens = Vec::with_capacity(alloc, count_tokens(source))?;
    let mut feed = MemoryFeed::new(source, WINDOW_BYTES);
    let Ok(mut cursor) = Cursor::open(&mut feed) else {
        return Ok(tokens);
    };
    let mut places = Finder::new(source);
    for _ in 0..MOST_SOURCE_BYTES + 2 {
        let token = *cursor.peek();
        tokens.push(places.place(&token))?;
        if token.token.is_last() || cursor.advance(&mut feed).is_err() {
            break;
        }
    }
    Ok(tokens)
}

/// Counts the tokens of a source, the last one included.
fn count_tokens(source: &[u8]) -> usize {
    let mut feed = MemoryFeed::new(source, WINDOW_BYTES);
    let Ok(mut cursor) = Cursor::open(&mut feed) else {
        return 0;
    };
    let mut count: usize = 0;
    for _ in 0..MOST_SOURCE_BYTES + 2 {
        let token = *cursor.peek();
        count = count.saturating_add(1);
        if token.token.is_last() || cursor.advance(&mut feed).is_err() {
            break;
        }
    }
    count
}

/// Tokens of a source that isn't too long, in memory of fixed size.
pub type Tokens = ArrayVec<Located, MOST_TOKENS>;

/// Finds all tokens of a source as `locate` does, without asking for memory. Answers whether there was room for all.
pub fn locate_in(tokens: &mut Tokens, source: &[u8]) -> bool
    ensures { result ≡ false → HasMoreTokens source.now }
{
    let mut feed = MemoryFeed::new(source, WINDOW_BYTES);
    let Ok(mut cursor) = Cursor::open(&mut feed) else {
        return true;
    };
    let mut places = Finder::new(source);
    for _token in 0..MOST_TOKENS {
        let token = *cursor.peek();
        let _ = tokens.try_push(places.place(&token));
        if token.token.is_last() || cursor.advance(&mut feed).is_err() {
            return true;
        }
    }
    false
}

/// How far the positions of a source's tokens are known: to the end of a token, and the columns to an offset that was
/// passed.
#[derive(Drop)]
pub(crate) struct Finder<'a> {
    source: &'a [u8],
    end: usize,
    passed: usize,
    column: u32,
    ghost is_column: { column ≡ column_at source.now passed },
}

impl<'a> Finder<'a> {
    /// Begins at the first byte of a source.
    pub(crate) fn new(source: &'a [u8]) -> Finder<'a>
        ensures source { result.source.now ≡ source.now }
        ensures end { result.end ≡ 0 }
    {
        Finder {
            source,
            end: 0,
            passed: 0,
            column: 1,
        }
    }

    /// Finds the position of the next token.
    pub(crate) fn place(&mut self, token: &LocatedToken) -> Located
        ensures token { result.token ≡ token.now.token }
        ensures line { result.line ≡ token.now.line }
        ensures column { result.column
            ≡ column_at self.old.source.now (start_of self.old.source.now self.old.end token.now) }
        ensures source { self.new.source ≡ self.old.source }
        ensures end { self.new.end ≡ token.now.end }
    {
        let start = self.start(token);
        let column = self.pass(start);
        self.end = token.end as usize;
        Located {
            token: token.token,
            line: token.line,
            column,
            start: u32::try_from(start).unwrap_or(u32::MAX),
            end: token.end,
        }
    }

    /// Returns the offset at which the next token begins: after the spaces and comments before it.
    fn start(&self, token: &LocatedToken) -> usize
        ensures { result ≡ start_of self.now.source.now self.now.end token.now }
    {
        let end = token.end as usize;
        if is_of_byte(token.token) {
            return end.saturating_sub(1);
        }
        let gap = between(self.source, self.end, end);
        let count = blanks(gap);
        self.end.saturating_add(count)
    }

    /// Returns the column of an offset, and goes on to it.
    fn pass(&mut self, offset: usize) -> u32
        ensures value { result ≡ column_at self.old.source.now offset }
        ensures source { self.new.source ≡ self.old.source }
        ensures end { self.new.end ≡ self.old.end }
    {
        let column = self.column_at(offset);
        self.passed = offset;
        self.column = column;
        column
    }

    /// Returns the column of an offset. It reads the bytes since the last one, or from the first if that was behind it.
    fn column_at(&self, offset: usize) -> u32
        ensures { result ≡ column_at self.now.source.now offset }
    {
        let passed = self.passed;
        if offset < passed {
            let before = between(self.source, 0, offset);
            return column_past(before, 1);
        }
        let gap = between(self.source, passed, offset);
        column_past(gap, self.column)
    }
}

/// Reports whether a token is the lexical error of a single byte.
fn is_of_byte(token: Token) -> bool
    ensures { result ≡ is_of_byte token }
{
    matches!(
        token,
        Token::Fault(LexicalError::BadCharacter | LexicalError::SourceTooLong)
    )
}

/// Returns the bytes of a source from one offset to another.
fn between(source: &[u8], from: usize, to: usize) -> &[u8]
    ensures { result.now ≡ slice_range source.now from to }
{
    let end = to.min(source.len());
    &source[from.min(end)..end]
}

/// Returns the column behind some bytes, given that before them.
fn column_past(bytes: &[u8], column: u32) -> u32
    ensures { result ≡ min (column_past bytes.now column) u32.MAX }
{
    let mut reached = column;
    for byte in bytes {
        reached = column_after(*byte, reached);
    }
    reached
}

/// Returns the column behind a byte.
fn column_after(byte: u8, column: u32) -> u32
    ensures { result ≡ min (column_after byte column) u32.MAX }
{
    if byte == b'\n' {
        1
    } else {
        column.saturating_add(1)
    }
}

/// Counts the bytes of the spaces and comments that some bytes begin with.
fn blanks(bytes: &[u8]) -> usize
    ensures value { result ≡ blanks bytes.now }
    ensures most { result ≤ length bytes.now }
{
    let mut passed = 0usize;
    for _blank in 0..bytes.len() {
        let count = blank(&bytes[passed..]);
        if count < 1 {
            return passed;
        }
        passed += count;
    }
    passed
}

/// Counts the bytes of the space or the comment that some bytes begin with: 0 if it is neither.
fn blank(bytes: &[u8]) -> usize
    ensures value { result ≡ blank_length (input_element bytes.now) }
    ensures most { result ≤ length bytes.now }
{
    let size = bytes.len();
    if size < 1 {
        return 0;
    }
    if is_blank(bytes[0]) {
        return 1;
    }
    if size < 2 {
        return 0;
    }
    if !opens(bytes[0], bytes[1]) {
        return 0;
    }
    match up_to_close(&bytes[2..]) {
        Some(count) => count + 2,
        None => 0,
    }
}

/// Reports whether two bytes open a comment.
fn opens(first: u8, second: u8) -> bool
    ensures { result ≡ ((first == 47) && (second == 42)) }
{
    first == b'/' && second == b'*'
}

/// Reports whether a byte is a space, or one of TAB, LF, VT, FF and CR.
fn is_blank(byte: u8) -> bool
    ensures { result ≡ is_blank byte }
{
    byte == b' ' || (9 <= byte && byte <= 13)
}

/// Counts the bytes of a comment after its `/*`, with the `*/` that closes it.
fn up_to_close(inside: &[u8]) -> Option<usize>
    ensures value { result ≡ up_to_close inside.now }
    ensures most { IfSome result (λ count. count ≤ length inside.now) }
{
    let mut is_star = false;
    for (i, byte) in inside.iter().enumerate() {
        if closes(is_star, *byte) {
            return Some(i + 1);
        }
        is_star = *byte == b'*';
    }
    None
}

/// Reports whether a byte closes a comment, given whether a star is before it.
fn closes(is_star: bool, byte: u8) -> bool
    ensures { result ≡ (is_star && (byte == 47)) }
{
    is_star && byte == b'/'
}
