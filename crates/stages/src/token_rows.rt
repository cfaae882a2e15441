//! The tokens of a source as rows.

use crate::texts::ascii;
use derivations::{Derivation, Located, locate};
use grammar::{Code, Diagnostic, lexical_error_code};
use std::alloc::AllocError;
use tokens::{Keyword, Token};
use tools::kind_of;

/// Adds a line for each token of a source, the end among them: its line, its column in bytes, both from 1, its kind,
/// and its text. Of a source with a fault the last line is that of the first token that doesn't fit, with the fault, if
/// there is such a token.
pub fn add_token_rows(
    text: &mut String,
    source: &[u8],
    fault: Option<Diagnostic>,
) -> Result<(), AllocError> {
    let tokens = locate(*text.allocator(), source)?;
    let misfit = Derivation::reached(tokens.as_slice(), tokens.len()).place();
    for (index, located) in tokens.iter().enumerate() {
        add_row(text, source, located)?;
        if index == misfit {
            return end_misfit(text, located, fault);
        }
        text.push('\n')?;
    }
    Ok(())
}

/// Adds the row of a token.
fn add_row(text: &mut String, source: &[u8], located: &Located) -> Result<(), AllocError> {
    let (line, column, kind) = (located.line, located.column, kind_of(&located.token));
    if located.token.is_last() {
        write!(text, "{line:>5} {column:>5} {kind}")
    } else {
        let spelling = spelling(source, located);
        write!(text, "{line:>5} {column:>5} {kind:<10} {spelling}")
    }
}

/// Returns how a token is spelled, or of one that is the last its kind.
pub fn spelling<'a>(source: &'a [u8], located: &Located) -> &'a str {
    if located.token.is_last() {
        kind_of(&located.token)
    } else {
        ascii(source.get(located.start()..located.end()).unwrap_or(&[]))
    }
}

/// Ends the row of a token that doesn't fit: with the source's fault, if that is the fault.
pub fn end_misfit(
    text: &mut String,
    located: &Located,
    fault: Option<Diagnostic>,
) -> Result<(), AllocError> {
    let (line, code) = (located.line, misfit_code(&located.token));
    if fault == Some(Diagnostic { line, code }) {
        writeln!(text, "  ; {}", code.text())
    } else {
        text.push('\n')
    }
}

/// Returns what is wrong with a token that doesn't fit.
fn misfit_code(token: &Token) -> Code {
    match token {
        Token::Fault(fault) => lexical_error_code(*fault),
        Token::Keyword(Keyword::Refused) => Code::ReservedWord,
        // any other token fits elsewhere
        _ => Code::SyntaxError,
    }
}
