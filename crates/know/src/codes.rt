//! The codes of faults and of warnings: a number, and a name of the first words.

ghost use Rattle.std.specs.Prelude.{◌≡◌, ◌≤◌};

use grammar::Code;
use tools::{Draft, Text};

/// The most words of the name of a warning.
const MOST_WORDS: usize = 6;

/// Returns the number of a fault, from 1: its row in the table of `docs/language.md`, "Diagnostics".
fn fault_number(code: Code) -> u64
    ensures least { 1 ≤ result }
    ensures most { result ≤ 16 }
{
    match code {
        Code::BadCharacter => 1,
        Code::CommentNotClosed => 2,
        Code::NameTooLong => 3,
        Code::ConstantTooLarge => 4,
        Code::SourceTooLong => 5,
        Code::SyntaxError => 6,
        Code::ReservedWord => 7,
        Code::NestedTooDeeply => 8,
        Code::TooManyVariables => 9,
        Code::TooManyFunctions => 10,
        Code::FunctionDefinedTwice => 11,
        Code::IntrinsicRedefined => 12,
        Code::BadParameterDeclaration => 13,
        Code::TooMuchCode => 14,
        Code::FunctionNotDefined => 15,
        Code::NoMainFunction => 16,
    }
}

/// Adds the code of a fault as a string.
pub fn add_fault_code(text: &mut Draft, code: Code) {
    text.add("\"fault");
    text.number(fault_number(code));
    text.push('"');
}

/// Adds the name of a warning as a string: the first of its words, without names, marks and numbers, and with `-` between
/// them.
pub fn add_warning_code(text: &mut Draft, words: &str) {
    text.push('"');
    let mut count: usize = 0;
    for word in words.split(' ') {
        let is_plain = !word.is_empty() && word.bytes().all(|byte| byte.is_ascii_alphabetic());
        if is_plain && count < MOST_WORDS {
            if count > 0 {
                text.push('-');
            }
            text.add(word);
            count = count.saturating_add(1);
        }
    }
    text.push('"');
}
