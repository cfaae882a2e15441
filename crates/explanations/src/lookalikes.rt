//! Names that are written for words of this language.

use crate::foreign::is_set;
use crate::indices::name_at;
use crate::spelling::{is_near, is_same_but_for_case};
use derivations::Located;

/// The words that a name may misspell, with what a hint says of them.
static WORDS: [(&str, &str); 9] = [
    ("if", "`if` is meant"),
    ("else", "`else` is meant"),
    ("while", "`while` is meant"),
    ("return", "`return` is meant"),
    ("int", "`int` is meant"),
    ("long", "`long` is meant"),
    ("auto", "`auto` is meant"),
    ("register", "`register` is meant"),
    (
        "for",
        "`for` is meant, which isn't known here: write a `while`",
    ),
];

/// Returns what is said after 'perhaps' of the word that a name may misspell.
/// It isn't inlined, since the page's module is to be small.
#[inline(never)]
pub fn meant_by(name: &[u8]) -> Option<&'static str> {
    for (word, shown) in &WORDS {
        if resembles(name, word.as_bytes()) {
            return Some(*shown);
        }
    }
    None
}

/// Reports whether the name of a token is a word but for capital letters, and nothing sets it: it may occur several times.
pub fn is_in_capitals(tokens: &[Located], index: usize) -> bool {
    let (Some(name), Some(located)) = (name_at(tokens, index), tokens.get(index)) else {
        return false;
    };
    for (word, _) in &WORDS {
        if is_same_but_for_case(name.as_bytes(), word.as_bytes()) {
            return !is_set(tokens, located);
        }
    }
    false
}

/// Reports whether a name may be a misspelled word. Of two letters only the order or the case may be wrong.
fn resembles(name: &[u8], word: &[u8]) -> bool {
    if is_same_but_for_case(name, word) {
        return true;
    }
    match (name, word) {
        ([a, b], [c, d]) => a == d && b == c,
        ([_, _, _, ..], [_, _, _, ..]) => is_near(name, word),
        _ => false,
    }
}
