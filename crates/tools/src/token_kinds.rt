//! The words for the kinds of tokens.

use tokens::{Keyword, Token};

/// Returns the word for a token's kind.
pub fn kind_of(token: &Token) -> &'static str {
    match token {
        Token::Name(_) => "name",
        Token::Keyword(Keyword::Type) => "type",
        Token::Keyword(Keyword::Refused) => "reserved",
        Token::Keyword(Keyword::If | Keyword::Else | Keyword::While | Keyword::Return) => "keyword",
        Token::Constant(_) => "constant",
        Token::Punctuator(_) => "punctuator",
        Token::End => "end",
        Token::Fault(_) => "fault",
    }
}
