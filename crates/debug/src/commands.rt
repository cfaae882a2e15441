//! Commands: what a line asks for.

use crate::counts::Count;
use crate::expressions::Expressions;
use crate::passes::{Pass, Which};
use crate::refusals::Refusal;
use crate::sought_events::sought;
use notes::NotedProgram;
use settings::{MOST_CYCLES, value_number};
use std::alloc::AllocError;
use watching::{Sought, SoughtCycle};

/// The most frames that are open.
const MOST_OPEN: u32 = 1000;

/// What a line asks for.
#[derive(Drop)]
pub enum Command<'a, 'm> {
    /// Nothing: it is blank.
    Nothing,
    /// Where the robot is after a cycle.
    At(u32),
    /// The first cycle after one, or the last one before it, in which something happens.
    Find(SoughtCycle, Sought<'m>),
    /// Cycles in which something happens and a condition holds.
    Pass(Pass<'m>),
    /// After a cycle, in the call with which this many frames are open, or in the innermost one for 0, the value of an
    /// expression.
    Value(u32, usize, &'a str),
    /// The calls that are open after a cycle.
    Calls(u32),
    /// The robot's instructions.
    Code,
    /// No more.
    Quit,
}

impl<'a, 'm> Command<'a, 'm> {
    /// Reads a line, about a robot of this program. The marks of what is sought are added to a list that has none.
    pub fn read(
        line: &'a str,
        noted: &NotedProgram<'_>,
        marks: &'m mut Vec<bool>,
    ) -> Result<Command<'a, 'm>, Refusal<'a>> {
        let (head, tail) = match line.split_once(';') {
            Some((head, tail)) => (head, Some(tail)),
            None => (line, None),
        };
        let words: Vec<&str> = head.split_whitespace().collect(*marks.allocator())?;
        match (words.as_slice(), tail) {
            ([], None) => Ok(Command::Nothing),
            (["at", cycle], None) => Ok(Command::At(cycle_of(cycle)?)),
            (["value", cycle], Some(words)) => {
                Ok(Command::Value(cycle_of(cycle)?, 0, words.trim()))
            }
            (["value", cycle, frames], Some(words)) => {
                let frames = number_of(frames, 1, MOST_OPEN)? as usize;
                Ok(Command::Value(cycle_of(cycle)?, frames, words.trim()))
            }
            (["next", cycle, event, rest @ ..], _) => {
                let which = SoughtCycle::After(cycle_of(cycle)?);
                find(noted, sought(event, rest, noted, marks)?, which, tail)
            }
            (["last", cycle, event, rest @ ..], _) => {
                let which = SoughtCycle::Before(cycle_of(cycle)?);
                find(noted, sought(event, rest, noted, marks)?, which, tail)
            }
            (["all", first, last, event, rest @ ..], _) => {
                let span = (cycle_of(first)?, cycle_of(last)?);
                let sought = sought(event, rest, noted, marks)?;
                pass(noted, sought, span, Which::All, tail.unwrap_or(""))
            }
            (["calls", cycle], None) => Ok(Command::Calls(cycle_of(cycle)?)),
            (["code"], None) => Ok(Command::Code),
            (["quit"], None) => Ok(Command::Quit),
            (words, _) => Err(misread(words.first().copied().unwrap_or(";"))),
        }
    }
}

/// Reads what has to hold in the cycle that is looked for, if there is more than that something happens.
fn find<'a, 'm>(
    noted: &NotedProgram<'_>,
    sought: Sought<'m>,
    cycle: SoughtCycle,
    tail: Option<&'a str>,
) -> Result<Command<'a, 'm>, Refusal<'a>> {
    let Some(tail) = tail else {
        return Ok(Command::Find(cycle, sought));
    };
    match cycle {
        SoughtCycle::After(after) => {
            pass(noted, sought, (after, MOST_CYCLES), Which::First, tail)
        }
        SoughtCycle::Before(before) => {
            let last = before.saturating_sub(1);
            pass(noted, sought, (0, last), Which::Last, tail)
        }
    }
}

/// Reads what has to hold in the cycles behind one and up to another, and what is told of each.
fn pass<'a, 'm>(
    noted: &NotedProgram<'_>,
    sought: Sought<'m>,
    span: (u32, u32),
    which: Which,
    parts: &'a str,
) -> Result<Command<'a, 'm>, Refusal<'a>> {
    let (after, to) = span;
    let alloc = *noted.note.text.allocator();
    let marks = match sought {
        Sought::Address(marks, _) => Some(marks),
        _ => None,
    };
    let mut pass = Pass {
        sought,
        after,
        to,
        which,
        condition: None,
        count: None,
        hits: 0,
        shown: Vec::new(alloc),
    };
    for part in parts.split(';') {
        let part = part.trim();
        if let Some(words) = part.strip_prefix("where ") {
            pass.condition = Some(Expressions::read(alloc, noted, words, marks)?);
        } else if let Some(words) = part.strip_prefix("count ") {
            pass.count = Some(Count::read(words.trim())?);
        } else if let Some(words) = part.strip_prefix("show ")
            && which == Which::All
        {
            let shown = Expressions::read(alloc, noted, words, marks)?;
            pass.shown.push(shown).map_err(AllocError::from)?;
        } else if !part.is_empty() {
            return Err(Refusal::Part(part));
        }
    }
    Ok(Command::Pass(pass))
}

/// Returns why the words after that of a command don't fit it: its form, if it is one.
fn misread(word: &str) -> Refusal<'_> {
    match word {
        "at" => Refusal::Form("at CYCLE"),
        "next" => Refusal::Form("next CYCLE EVENT"),
        "last" => Refusal::Form("last CYCLE EVENT"),
        "all" => Refusal::Form("all CYCLE CYCLE EVENT"),
        "value" => Refusal::Form("value CYCLE [FRAMES]; EXPRESSION"),
        "calls" => Refusal::Form("calls CYCLE"),
        "code" => Refusal::Form("code"),
        "quit" => Refusal::Form("quit"),
        other => Refusal::Command(other),
    }
}

/// Reads a cycle: 0 is before the first one.
fn cycle_of(word: &str) -> Result<u32, Refusal<'_>> {
    number_of(word, 0, MOST_CYCLES)
}

/// Reads a number from the least to the most.
pub fn number_of(word: &str, least: u32, most: u32) -> Result<u32, Refusal<'_>> {
    match value_number(word, u64::from(least), u64::from(most)) {
        Some(number) => Ok(number as u32),
        None => Err(Refusal::Number(word, i64::from(least), i64::from(most))),
    }
}
