//! Passes: the cycles of a match in which something happens and a condition holds, found while the match is played once.

ghost use Rattle.std.specs.Prelude.{◌<◌, ◌≤◌, length};

use crate::counts::Count;
use crate::expressions::Expressions;
use crate::sessions::Session;
use arena::MOST_ROBOTS;
use code::Machine;
use std::alloc::AllocError;
use tools::{Draft, Text};
use watching::{Game, Pilot, Sought, happens};

/// Which of the cycles are told.
#[derive(Clone, Copy, PartialEq, Eq)]
pub enum Which {
    /// The first one.
    First,
    /// The last one.
    Last,
    /// All of them.
    All,
}

/// What is looked for, and what is told of it.
#[derive(Drop)]
pub struct Pass<'m> {
    /// What happens in the cycles.
    pub sought: Sought<'m>,
    /// Cycles up to this one don't count.
    pub after: u32,
    /// The last cycle that counts.
    pub to: u32,
    /// Which ones are told.
    pub which: Which,
    /// What has to hold after the cycle, if something has to.
    pub condition: Option<Expressions>,
    /// Which of them count, if not all do: they are numbered from the first cycle of the match on.
    pub count: Option<Count>,
    /// How many there were so far.
    pub hits: u32,
    /// What is told beside a cycle.
    pub shown: Vec<Expressions>,
}

impl<'m> Pass<'m> {
    /// Plays the match of a session up to the last cycle that counts, and adds a row for each cycle that is told, or
    /// `none`, and an empty line. The only error is that memory is refused.
    pub fn play(
        &mut self,
        text: &mut Draft,
        session: &Session<'_>,
        pilots: &mut [Pilot<'_>],
    ) -> Result<(), AllocError>
        requires some { 2 ≤ length pilots.old }
        requires most { length pilots.old ≤ MOST_ROBOTS }
    {
        let wish = session.wish;
        let mut game = Game::new(pilots, wish.seed(), wish.first(), wish.limit());
        let mut row = Draft::new(text.alloc());
        for _ in 0..self.to {
            if game.ending().is_over {
                break;
            }
            if session.robot >= pilots.len() {
                break;
            }
            let is_now = happens(&mut game, pilots, session.robot, &self.sought);
            let cycle = game.ending().cycles;
            let is_asked_for = cycle > self.after || self.count.is_some();
            if is_now && is_asked_for && session.robot < pilots.len() {
                let machine = pilots[session.robot].machine();
                if self.holds(session, machine)? && self.counts() && cycle > self.after {
                    row = self.row(session, machine, cycle, row)?;
                    if self.which == Which::First {
                        break;
                    }
                }
            }
        }
        if row.is_empty() {
            row.add("none\n");
        }
        text.add(row.finish()?.as_str());
        text.add("\n");
        Ok(())
    }

    /// Takes a hit more. Reports whether it counts.
    fn counts(&mut self) -> bool {
        self.hits = self.hits.saturating_add(1);
        match self.count {
            Some(count) => count.holds(self.hits),
            None => true,
        }
    }

    /// Reports whether the condition holds.
    fn holds(&mut self, session: &Session<'_>, machine: &Machine) -> Result<bool, AllocError> {
        match &mut self.condition {
            Some(condition) => Ok(condition.value(&session.noted, machine)?.unwrap_or(0) != 0),
            None => Ok(true),
        }
    }

    /// Returns the rows with that of a cycle: the last one alone, if only that is told.
    fn row(
        &mut self,
        session: &Session<'_>,
        machine: &Machine,
        cycle: u32,
        rows: Draft,
    ) -> Result<Draft, AllocError> {
        let mut rows = if self.which == Which::Last {
            Draft::new(rows.alloc())
        } else {
            rows
        };
        write!(rows, "found\t{cycle}");
        for expression in &mut self.shown {
            match expression.value(&session.noted, machine)? {
                Some(value) => write!(rows, "\t{value}"),
                None => rows.add("\t?"),
            }
        }
        rows.add("\n");
        Ok(rows)
    }
}
