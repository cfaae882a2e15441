//! The tokens of a source as a row: of each its kind and the place of its bytes.

use derivations::Located;
use recovery::past_fault;
use tokens::Token;
use tools::{Array, Draft, Text, begin_row, kind_of};

/// Adds a row with all tokens of a source, those past its lexical errors and these themselves among them.
pub fn add_tokens(text: &mut Draft, source: &[u8], tokens: &[Located]) {
    let mut row = begin_row(text, "tokens");
    let mut list = Array::begin(row.field("tokens"));
    for located in tokens {
        if located.token != Token::End {
            add_token(list.item(), source, located);
        }
    }
    list.end();
    row.end();
    text.add("\n");
}

/// Adds a token: its kind, how many bytes are before it, and how many there are up to its last one.
fn add_token(text: &mut Draft, source: &[u8], located: &Located) {
    let mut item = Array::begin(text);
    let kind = item.item();
    kind.push('"');
    kind.add(kind_of(&located.token));
    kind.push('"');
    item.item().number(located.start() as u64);
    item.item().number(end_of(source, located) as u64);
    item.end();
}

/// Returns how many bytes there are up to the last one of a token: of a lexical error, up to where the reading goes on.
pub fn end_of(source: &[u8], located: &Located) -> usize {
    past_fault(source, located).unwrap_or(located.end())
}
