//! What the turns of a source's loops take, as rows.

use crate::rows::Row;
use crate::sheets::Sheet;
use cycles::Span;
use derivations::{Located, Loop, Sum, Sums};
use grammar::{Intrinsic, Profile};
use watching::{Event, Field};

/// Writes a row for each loop of a source: its line, and the fewest and the most cycles of a turn, as far as there are.
pub(crate) fn tell_turns(tokens: &[Located], profile: Profile, sheet: &mut Sheet) {
    let sums: Sums<'_, Cycles> = Sums::of(tokens, profile);
    for found in sums.loops() {
        sheet.add(Row::new(found.position.line, 0, &turn_event(found)).as_slice());
    }
}

/// Returns the event that a loop takes this number of cycles.
fn turn_event(found: &Loop<Cycles>) -> Event<'static> {
    let mut event = Event::new("turn", &[]);
    if let Some(Cycles(turn)) = found.turn {
        let _ = event.fields.try_push(Field::Number(i64::from(turn.least)));
        if let Some(most) = turn.most {
            let _ = event.fields.try_push(Field::Number(i64::from(most)));
        }
    }
    event
}

/// How many cycles a piece of a program takes.
#[derive(Clone, Copy, PartialEq, Eq)]
struct Cycles(Span);

impl Sum for Cycles {
    fn cycles(number: u32) -> Cycles {
        Cycles(Span::exactly(number))
    }

    fn asking(_: Intrinsic) -> Cycles {
        Cycles(Span::exactly(1))
    }

    fn unknown() -> Cycles {
        Cycles(Span::anything())
    }

    fn then(self, next: Cycles) -> Cycles {
        Cycles(self.0.plus(next.0))
    }

    fn or(self, other: Cycles) -> Cycles {
        Cycles(self.0.or(other.0))
    }

    fn any_number(self) -> Cycles {
        Cycles(self.0.any_number())
    }
}
