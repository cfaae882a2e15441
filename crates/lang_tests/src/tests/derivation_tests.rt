//! The token that each instruction of a small source comes from, and the tokens that fit at a statement's beginning.

use derivations::{Fitting, SourcePosition, fitting, lines, locate};
use grammar::Profile;
use std::process::Abort;
use std::test::Fail;
use tokens::{Keyword, Name, Punctuator, Token};

/// The columns of the instructions of `SHIFTED`: of `b`, `1`, `>>`, `=` and the semicolon, of the closing brace for the
/// last return, and of the end.
const COLUMNS: [u32; 8] = [21, 26, 23, 11, 27, 29, 29, 30];

/// The first `*/` closes the comment that begins with `/*/`.
const SHIFTED: &[u8] = b"main(){ a = /*/ 0 */b >> 1; }";

/// Compares the columns of instructions of a source of one line.
fn check(rt: &impl Abort, source: &[u8], wanted: &[u32]) -> Result<(), Fail> {
    let Some(lines) = lines(source, Profile::first()) else {
        return Err(Fail::from("no lines"));
    };
    for (address, column) in wanted.iter().enumerate() {
        let place = SourcePosition {
            line: 1,
            column: *column,
        };
        assert_eq!(rt; lines.place(address), Some(place));
    }
    assert_eq!(rt; lines.len(), wanted.len());
    Ok(())
}

#[test]
fn a_store_and_an_operator_come_from_their_own_tokens(rt: HostRuntime) -> Result<(), Fail> {
    check(&rt, SHIFTED, &COLUMNS)
}

/// The tokens that begin a statement, beside a closing brace, a declaration, a name and a constant.
const BEGINS: [Token; 11] = [
    Token::Punctuator(Punctuator::Minus),
    Token::Punctuator(Punctuator::Tilde),
    Token::Punctuator(Punctuator::Not),
    Token::Punctuator(Punctuator::PlusPlus),
    Token::Punctuator(Punctuator::MinusMinus),
    Token::Punctuator(Punctuator::OpenRound),
    Token::Punctuator(Punctuator::OpenCurly),
    Token::Punctuator(Punctuator::Semicolon),
    Token::Keyword(Keyword::If),
    Token::Keyword(Keyword::While),
    Token::Keyword(Keyword::Return),
];

/// Reports whether a token is among those that fit.
fn has(found: &Fitting, token: &Token) -> bool {
    found
        .as_slice()
        .iter()
        .any(|located| located.token == *token)
}

#[test]
fn what_fits_where_a_block_begins(rt: HostRuntime) -> Result<(), Fail> {
    let Ok(tokens) = locate(rt.alloc(), b"main(){ }") else {
        return Err(Fail::from("no tokens"));
    };
    let found = fitting(tokens.as_slice(), 4);
    for token in &BEGINS {
        assert_eq!(&rt; has(&found, token), true);
    }
    let others = [
        Token::Punctuator(Punctuator::CloseCurly),
        Token::Keyword(Keyword::Type),
        Token::Name(Name::new()),
        Token::Constant(0),
    ];
    for token in &others {
        assert_eq!(&rt; has(&found, token), true);
    }
    assert_eq!(&rt; found.len(), BEGINS.len() + others.len());
    Ok(())
}
