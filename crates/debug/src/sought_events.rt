//! What is sought in the cycles of the robot.

use crate::marks::{mark_function, mark_lines};
use crate::refusals::Refusal;
use code::Intrinsic;
use grammar::Var;
use notes::{NotedProgram, Variable, variables_named};
use settings::value_number;
use watching::Sought;

/// The most frames that a number of them may say.
const MOST_FRAMES: u64 = 1000;

/// Reads what is sought in the cycles of a robot of this program: a word, and those that belong to it. The marks of
/// instructions are added to a list that has none.
pub fn sought<'a, 'm>(
    event: &'a str,
    words: &[&'a str],
    noted: &NotedProgram<'_>,
    marks: &'m mut Vec<bool>,
) -> Result<Sought<'m>, Refusal<'a>> {
    match (event, words) {
        ("line" | "in", [lines, rest @ ..]) if rest.len() < 2 => {
            let frames = frames_of(rest)?;
            mark_lines(marks, noted, lines, event == "in")?;
            Ok(Sought::Address(marks.as_slice(), frames))
        }
        ("ask", [name]) => Ok(Sought::Question(intrinsic(name)?, i32::MIN, i32::MAX)),
        ("ask", [name, least, most]) => {
            Ok(Sought::Question(intrinsic(name)?, number(least)?, number(most)?))
        }
        ("restart", []) => Ok(Sought::Restart),
        ("hurt", []) => Ok(Sought::Hurt),
        ("hit", []) => Ok(Sought::Hit),
        ("change", [name]) => match variable(name, noted, marks)? {
            Var::Local(number) => Ok(Sought::LocalChange(marks.as_slice(), number)),
            external => Ok(Sought::Change(external)),
        },
        ("value", [name, value]) => match (variable(name, noted, marks)?, number(value)?) {
            (Var::Local(number), value) => Ok(Sought::LocalValue(marks.as_slice(), number, value)),
            (external, value) => Ok(Sought::Value(external, value)),
        },
        _ => Err(misread(event)),
    }
}

/// Returns why the words after that of an event don't fit it: its form, if it is one.
fn misread(event: &str) -> Refusal<'_> {
    match event {
        "line" => Refusal::Form("line LINES [FRAMES]"),
        "in" => Refusal::Form("in LINES [FRAMES]"),
        "ask" => Refusal::Form("ask FUNCTION [LEAST MOST]"),
        "restart" => Refusal::Form("restart"),
        "hurt" => Refusal::Form("hurt"),
        "hit" => Refusal::Form("hit"),
        "change" => Refusal::Form("change NAME"),
        "value" => Refusal::Form("value NAME NUMBER"),
        other => Refusal::Event(other),
    }
}

/// Reads the most frames that may be open, if a number of them is given.
fn frames_of<'a>(words: &[&'a str]) -> Result<usize, Refusal<'a>> {
    let [frames, ..] = words else {
        return Ok(usize::MAX);
    };
    match value_number(frames, 1, MOST_FRAMES) {
        Some(most) => Ok(most as usize),
        None => Err(Refusal::Number(frames, 1, MOST_FRAMES as i64)),
    }
}

/// Returns the intrinsic function of this name.
fn intrinsic(name: &str) -> Result<Intrinsic, Refusal<'_>> {
    for intrinsic in &Intrinsic::ALL {
        if intrinsic.name() == name {
            return Ok(*intrinsic);
        }
    }
    Err(Refusal::Function(name))
}

/// Reads a number of 32 bits.
fn number(word: &str) -> Result<i32, Refusal<'_>> {
    match word.parse::<i32>() {
        Ok(number) => Ok(number),
        Err(_) => Err(Refusal::Number(word, i64::from(i32::MIN), i64::from(i32::MAX))),
    }
}

/// Returns the only variable that a word names. If it is one of a function, the instructions of that are marked.
fn variable<'a>(
    word: &'a str,
    noted: &NotedProgram<'_>,
    marks: &mut Vec<bool>,
) -> Result<Var, Refusal<'a>> {
    match variables_named(*marks.allocator(), &noted.note.names, word)?.as_slice() {
        [] => Err(Refusal::Name(word)),
        [Variable::External(number)] => Ok(Var::External(*number)),
        [Variable::Local(function, number)] => {
            mark_function(marks, noted, *function)?;
            Ok(Var::Local(*number))
        }
        _ => Err(Refusal::Several(word)),
    }
}
