//! Why a command isn't answered.

use std::alloc::AllocError;
use std::fmt;
use tools::Plain;

const NO_COMMAND: &str = "not at, next, last, all, value, calls, code or quit";

const NO_EVENT: &str = "not line, in, ask, restart, hurt, hit, change or value";

const NOT_ONE: &str = "in several functions, so it wants one: FUNCTION.NAME";

const ACTS: &str = "an expression calls nothing and sets nothing";

const NO_PART: &str = "not where EXPRESSION, count NUMBER, or after all show EXPRESSION";

/// Why a command isn't answered.
#[derive(Clone, Copy)]
pub enum Refusal<'a> {
    /// The line is no text of UTF-8.
    NoText,
    /// No command begins with this word.
    Command(&'a str),
    /// After `next` or `last` and the cycle this word stands for nothing that can be sought.
    Event(&'a str),
    /// A word is missing, or there is one too many: the form of the command.
    Form(&'static str),
    /// This word is no number from the least to the most.
    Number(&'a str, i64, i64),
    /// This word is no list of lines.
    Lines(&'a str),
    /// No instruction comes from the lines of this list.
    NoCode(&'a str),
    /// No intrinsic function has this name.
    Function(&'a str),
    /// The robot has no variable of this name.
    Name(&'a str),
    /// Several functions of the robot have a variable of this name.
    Several(&'a str),
    /// This is no expression of the language.
    Expression(&'a str),
    /// The expression calls or sets something.
    Acts(&'a str),
    /// This says no number of a hit.
    Count(&'a str),
    /// This part of a command, behind a `;`, is none that fits there.
    Part(&'a str),
    /// No call is open with this many frames.
    Call(usize),
    /// Memory was refused.
    Memory,
}

impl<'a> fmt::Display for Refusal<'a> {
    fn fmt<W: fmt::Write>(&self, f: &mut fmt::Formatter<W>) -> fmt::Result {
        match *self {
            Refusal::NoText => f.write_str("the line is no text"),
            Refusal::Memory => f.write_str("out of memory"),
            Refusal::Form(form) => write!(f, "the form is {form}"),
            Refusal::Call(frames) => write!(f, "{frames}: no call is open with so many frames"),
            Refusal::Number(word, least, most) => {
                write!(f, "{}: no number from {least} to {most}", Plain(word))
            }
            Refusal::Command(word) => refuse(f, word, NO_COMMAND),
            Refusal::Event(word) => refuse(f, word, NO_EVENT),
            Refusal::Lines(word) => refuse(f, word, "no lines, as 3 or 5,8-12"),
            Refusal::NoCode(word) => refuse(f, word, "no code in these lines"),
            Refusal::Function(word) => refuse(f, word, "no intrinsic function"),
            Refusal::Name(word) => refuse(f, word, "no variable"),
            Refusal::Several(word) => refuse(f, word, NOT_ONE),
            Refusal::Expression(words) => refuse(f, words, "no expression"),
            Refusal::Acts(words) => refuse(f, words, ACTS),
            Refusal::Count(words) => refuse(f, words, "not as 3, >= 3 or % 3"),
            Refusal::Part(words) => refuse(f, words, NO_PART),
        }
    }
}

/// Writes words that a command isn't answered for, and why.
fn refuse<W: fmt::Write>(f: &mut fmt::Formatter<W>, words: &str, why: &str) -> fmt::Result {
    write!(f, "{}: {why}", Plain(words))
}

impl<'a> From<AllocError> for Refusal<'a> {
    fn from(_fault: AllocError) -> Refusal<'a> {
        Refusal::Memory
    }
}
