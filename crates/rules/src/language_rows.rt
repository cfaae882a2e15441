//! All diagnostics, punctuators and words, a row each.

ghost use Rattle.std.specs.Prelude.{◌≡◌, Some, IfSome};
ghost use Rattle.grammar.specs.Faults.{fault_code_number};

use crate::punctuators::{Spelling, punctuators, token_of};
use grammar::{Code, operator_from, store_operator};
use std::alloc::AllocError;
use std::str;
use tokens::{Keyword, Token};
use tools::{Draft, Text, begin_row};

/// The words that the language keeps for itself, in the order of letters. What each is, the lexer says.
const WORDS: &str =
    "auto break case char continue default do double else extern float for goto if int long register return short sizeof static struct switch typedef union unsigned void while";

/// Adds a row for each diagnostic, in their order.
pub fn add_diagnostics(text: &mut Draft) {
    for number in 1..u64::MAX {
        let Some(code) = diagnostic_numbered(number) else {
            return;
        };
        let mut row = begin_row(text, "diagnostic");
        row.number("number", number);
        row.words("text", code.text());
        row.end();
        text.add("\n");
    }
}

/// Returns the diagnostic of a number, none if no diagnostic has it.
fn diagnostic_numbered(number: u64) -> Option<Code>
    ensures each { (code : Code) → fault_code_number code ≡ number → result ≡ Some code }
    ensures its_own { IfSome result (λ code. fault_code_number code ≡ number) }
{
    match number {
        1 => Some(Code::BadCharacter),
        2 => Some(Code::CommentNotClosed),
        3 => Some(Code::NameTooLong),
        4 => Some(Code::ConstantTooLarge),
        5 => Some(Code::SourceTooLong),
        6 => Some(Code::SyntaxError),
        7 => Some(Code::ReservedWord),
        8 => Some(Code::NestedTooDeeply),
        9 => Some(Code::TooManyVariables),
        10 => Some(Code::TooManyFunctions),
        11 => Some(Code::FunctionDefinedTwice),
        12 => Some(Code::IntrinsicRedefined),
        13 => Some(Code::BadParameterDeclaration),
        14 => Some(Code::TooMuchCode),
        15 => Some(Code::FunctionNotDefined),
        16 => Some(Code::NoMainFunction),
        _ => None,
    }
}

/// Adds a row for each punctuator: the level of its binary operator, or null, and whether it assigns. The only error is that
/// memory is refused.
pub fn add_punctuators(text: &mut Draft) -> Result<(), AllocError> {
    for spelling in &punctuators(text.alloc())? {
        add_punctuator(text, spelling);
    }
    Ok(())
}

/// Adds the row of a punctuator.
fn add_punctuator(text: &mut Draft, spelling: &Spelling) {
    let token = token_of(spelling.bytes());
    let level = operator_from(&token, 1).map(|binary| u64::from(binary.level));
    let mut row = begin_row(text, "punctuator");
    row.words("text", str::from_utf8(spelling.bytes()).unwrap_or("?"));
    row.number_or_null("level", level);
    row.truth("assigns", store_operator(&token).is_some());
    row.end();
    text.add("\n");
}

/// Adds a row for each word that the language keeps for itself, with what it is.
pub fn add_words(text: &mut Draft) {
    for word in WORDS.split(' ') {
        let mut row = begin_row(text, "word");
        row.words("text", word);
        row.words("is", kind_of(&token_of(word.as_bytes())));
        row.end();
        text.add("\n");
    }
}

/// Returns what a word is: one of the grammar's, one of a type, one that is refused, or none of these.
fn kind_of(token: &Token) -> &'static str {
    match token {
        Token::Keyword(Keyword::If | Keyword::Else | Keyword::While | Keyword::Return) => "keyword",
        Token::Keyword(Keyword::Type) => "type",
        Token::Keyword(Keyword::Refused) => "reserved",
        _ => "name",
    }
}
