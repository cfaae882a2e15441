//! The tokens of small sources, read whole and one byte at a time.

ghost use Rattle.std.specs.Prelude.{ℕ, Bool, List, ◌<◌, ◌≤◌, ◌-◌, ◌^◌, ◌+◌, ◌≡◌, length, None};

use std::process::Abort;
use std::test::Fail;
use tokens::Keyword::{Else, If, Refused, Return, Type, While};
use tokens::{
    Cursor, DeviceFault, Feed, LexicalError, LocatedToken, MemoryFeed, Name, Punctuator, Token,
    WINDOW_BYTES,
};

/// The bytes of the longest name.
const LONGEST: &[u8] = b"_234567890123456789012345678901";

fn name(bytes: &[u8]) -> Token {
    let mut name = Name::new();
    for b in bytes {
        if !name.is_full() {
            name.push(*b);
        }
    }
    Token::Name(name)
}

/// Compares the tokens of a source, each with its line and its end.
fn check(rt: &impl Abort, source: &[u8], wanted: &[(Token, u32, u32)]) -> Result<(), DeviceFault> {
    check_pieces(rt, source, WINDOW_BYTES, wanted)?;
    check_pieces(rt, source, 1, wanted)
}

/// Compares the one token of a source, which is an error.
fn check_fault(
    rt: &impl Abort,
    source: &[u8],
    error: LexicalError,
    line: u32,
    end: u32,
) -> Result<(), DeviceFault> {
    check(rt, source, &[(Token::Fault(error), line, end)])
}

fn check_pieces(
    rt: &impl Abort,
    source: &[u8],
    most: usize,
    wanted: &[(Token, u32, u32)],
) -> Result<(), DeviceFault>
    requires { 0 < most }
{
    let mut feed = MemoryFeed::new(source, most);
    let mut cursor = Cursor::open(&mut feed)?;
    for (i, (token, line, end)) in wanted.iter().enumerate() {
        let located_token = LocatedToken {
            token: *token,
            line: *line,
            end: *end,
        };
        assert_eq!(rt; *cursor.peek(), located_token);
        assert_eq!(rt; token.is_last(), i + 1 == wanted.len());
        if !cursor.peek().token.is_last() {
            cursor.advance(&mut feed)?;
        }
    }
    Ok(())
}

#[test]
fn empty(rt: HostRuntime) -> Result<(), Fail> {
    check(&rt, b"", &[(Token::End, 1, 0)])?;
    check(&rt, b"\n \r\x0b\x0c\t\n", &[(Token::End, 3, 7)])?;
    Ok(())
}

#[test]
fn longest_match(rt: HostRuntime) -> Result<(), Fail> {
    let wanted = [
        (name(b"a"), 1, 1),
        (Token::Punctuator(Punctuator::PlusPlus), 1, 3),
        (Token::Punctuator(Punctuator::Plus), 1, 4),
        (name(b"b"), 1, 5),
        (Token::End, 1, 5),
    ];
    check(&rt, b"a+++b", &wanted)?;
    let wanted = [
        (Token::Punctuator(Punctuator::ShiftLeftEquals), 1, 3),
        (Token::Punctuator(Punctuator::ShiftLeft), 1, 6),
        (Token::Punctuator(Punctuator::Less), 1, 8),
        (Token::Punctuator(Punctuator::LessEquals), 2, 11),
        (Token::Punctuator(Punctuator::NotEquals), 2, 13),
        (Token::Punctuator(Punctuator::Equals), 2, 14),
        (Token::End, 2, 14),
    ];
    check(&rt, b"<<= << <\n<=!==", &wanted)?;
    Ok(())
}

#[test]
fn comments(rt: HostRuntime) -> Result<(), Fail> {
    let wanted = [
        (name(b"a"), 1, 1),
        (name(b"b"), 2, 14),
        (Token::Punctuator(Punctuator::Slash), 2, 15),
        (name(b"c"), 2, 16),
        (Token::End, 2, 21),
    ];
    check(&rt, b"a/*\n/*\x00\xc8\" **/b/c/***/", &wanted)?;
    let wanted = [
        (name(b"main"), 1, 4),
        (Token::Punctuator(Punctuator::OpenRound), 1, 5),
        (Token::Punctuator(Punctuator::CloseRound), 1, 6),
        (Token::Punctuator(Punctuator::OpenCurly), 1, 7),
        (Token::Punctuator(Punctuator::CloseCurly), 1, 8),
        (Token::Fault(LexicalError::CommentNotClosed), 2, 13),
    ];
    check(&rt, b"main(){}\n/* x", &wanted)?;
    check_fault(&rt, b"\n/*/\n", LexicalError::CommentNotClosed, 2, 5)?;
    Ok(())
}

#[test]
fn long_comment(rt: HostRuntime) -> Result<(), Fail> {
    check(
        &rt,
        b"/* one\n two\n three, a comment of more than a block of bytes\n * with a star here,\n and one more **/ x",
        &[(name(b"x"), 5, 100), (Token::End, 5, 100)],
    )?;
    Ok(())
}

#[test]
fn names(rt: HostRuntime) -> Result<(), Fail> {
    let wanted = [
        (Token::Keyword(If), 1, 2),
        (Token::Keyword(Else), 1, 7),
        (Token::Keyword(While), 1, 13),
        (Token::Keyword(Return), 1, 20),
        (Token::Keyword(Type), 1, 24),
        (Token::Keyword(Type), 1, 29),
        (Token::Keyword(Type), 1, 34),
        (Token::Keyword(Type), 1, 43),
        (Token::Keyword(Refused), 1, 47),
        (name(b"iff"), 1, 51),
        (Token::End, 1, 51),
    ];
    check(
        &rt,
        b"if else while return int long auto register for iff",
        &wanted,
    )?;
    check(&rt, LONGEST, &[(name(LONGEST), 1, 31), (Token::End, 1, 31)])?;
    check_fault(
        &rt,
        b"_2345678901234567890123456789012345;",
        LexicalError::NameTooLong,
        1,
        35,
    )?;
    Ok(())
}

#[test]
fn constants(rt: HostRuntime) -> Result<(), Fail> {
    let wanted = [
        (Token::Constant(2147483647), 1, 13),
        (Token::Punctuator(Punctuator::Comma), 1, 14),
        (Token::Constant(8), 1, 16),
        (name(b"x"), 1, 17),
        (Token::End, 1, 17),
    ];
    check(&rt, b"0002147483647,08x", &wanted)?;
    check_fault(&rt, b"2147483648;", LexicalError::ConstantTooLarge, 1, 10)?;
    check_fault(
        &rt,
        b"99999999999999999999999999999999999999990;",
        LexicalError::ConstantTooLarge,
        1,
        41,
    )?;
    Ok(())
}

#[test]
fn bad_characters(rt: HostRuntime) -> Result<(), Fail> {
    check_fault(&rt, b" \x00", LexicalError::BadCharacter, 1, 2)?;
    check_fault(&rt, b"\n\xc8x", LexicalError::BadCharacter, 2, 2)?;
    check_fault(&rt, b"\"", LexicalError::BadCharacter, 1, 1)?;
    Ok(())
}

#[test]
fn byte_26(rt: HostRuntime) -> Result<(), Fail> {
    check(&rt, b"a\n\x1ab", &[(name(b"a"), 1, 1), (Token::End, 2, 2)])?;
    check_fault(&rt, b"/*\n\x1a*/", LexicalError::CommentNotClosed, 1, 3)?;
    Ok(())
}

/// A device of many equal bytes, and then one other.
#[derive(Drop)]
struct Many {
    byte: u8,
    left: u32,
    last: Option<u8>,
    ended: bool,
}

impl Many {
    fn give(&mut self, buf: &mut [u8]) -> usize
        ensures { result ≤ length buf.old }
    {
        let mut count = 0;
        for b in buf {
            if self.left > 0 {
                self.left -= 1;
                *b = self.byte;
            } else if let Some(last) = self.last {
                self.last = None;
                *b = last;
            } else {
                return count;
            }
            count += 1;
        }
        count
    }
}

impl Feed for Many {
    ghost device = { λ m. record {
      account = record { device = 0; failures = 0 };
      to_come = None;
      ended = m.ended;
    } };

    fn fill(&mut self, buf: &mut [u8]) -> Result<usize, DeviceFault> {
        let count = self.give(buf);
        self.ended = count == 0;
        Ok(count)
    }
}

/// Returns the first token of many line ends and then perhaps another byte.
fn behind_lines(left: u32, last: Option<u8>) -> Result<(Token, u32, u32), DeviceFault> {
    let mut feed = Many {
        byte: b'\n',
        left,
        last,
        ended: false,
    };
    let cursor = Cursor::open(&mut feed)?;
    let LocatedToken { token, line, end } = *cursor.peek();
    Ok((token, line, end))
}

#[test]
fn limit(rt: HostRuntime) -> Result<(), Fail> {
    let long = Token::Fault(LexicalError::SourceTooLong);
    assert_eq!(rt;
        behind_lines(1_048_576, None)?,
        (Token::End, 1_048_577, 1_048_576)
    );
    assert_eq!(rt;
        behind_lines(1_048_577, None)?,
        (long, 1_048_577, 1_048_577)
    );
    assert_eq!(rt;
        behind_lines(9_999_999, None)?,
        (long, 1_048_577, 1_048_577)
    );
    assert_eq!(rt;
        behind_lines(1_048_576, Some(26))?,
        (Token::End, 1_048_577, 1_048_576)
    );
    assert_eq!(rt;
        behind_lines(1_048_575, Some(b'"'))?,
        (
            Token::Fault(LexicalError::BadCharacter),
            1_048_576,
            1_048_576
        )
    );
    Ok(())
}

#[test]
fn asks_for_two_tokens(rt: HostRuntime) -> Result<(), Fail> {
    let mut feed = MemoryFeed::new(b"a bc d", 1);
    let mut cursor = Cursor::open(&mut feed)?;
    assert_eq!(rt; feed.taken(), 5);
    assert!(rt; !cursor.peek().token.is_last());
    cursor.advance(&mut feed)?;
    assert_eq!(rt; feed.taken(), 6);
    Ok(())
}

#[test]
fn asks_no_more(rt: HostRuntime) -> Result<(), Fail> {
    let mut feed = MemoryFeed::new(b"a\x1a b", 1);
    let cursor = Cursor::open(&mut feed)?;
    assert_eq!(rt; cursor.after().token, Token::End);
    assert_eq!(rt; feed.taken(), 2);
    Ok(())
}

#[test]
fn device_fails(rt: HostRuntime) -> Result<(), Fail> {
    let mut feed = MemoryFeed::failing_at(b"ab cd", 2, 1);
    assert!(rt; Cursor::open(&mut feed).is_err());
    assert_eq!(rt; feed.failures(), 1);
    assert_eq!(rt; feed.taken(), 2);
    Ok(())
}

/// Compares the first token of a source whose device would fail at the second read, and is not asked again.
fn check_first(rt: &impl Abort, source: &[u8], wanted: Token) -> Result<(), DeviceFault> {
    let mut feed = MemoryFeed::failing_at(source, WINDOW_BYTES, 1);
    let cursor = Cursor::open(&mut feed)?;
    assert_eq!(rt; cursor.peek().token, wanted);
    assert_eq!(rt; feed.failures(), 0);
    Ok(())
}

#[test]
fn the_end_is_asked_for_once(rt: HostRuntime) -> Result<(), Fail> {
    check_first(&rt, b"", Token::End)?;
    Ok(())
}

#[test]
fn bad_character_is_shown_at_once(rt: HostRuntime) -> Result<(), Fail> {
    check_first(&rt, b"$", Token::Fault(LexicalError::BadCharacter))?;
    Ok(())
}
