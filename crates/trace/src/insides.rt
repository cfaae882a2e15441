//! Robots from inside, for films: in which line each is after an update, and what it asked last.

use arena::MOST_ROBOTS;
use notes::Sources;
use watching::{Asked, Event, Exchange, Field, Pilot, Turn, UPDATE_CYCLES};

/// What is known of a robot: its last question, the cycle of the one that was reported last, and the address that was.
#[derive(Clone, Copy, Default)]
struct Inside {
    asked: Option<Asked>,
    told: u32,
    address: Option<usize>,
}

/// What is known of the robots from inside.
#[derive(Drop)]
pub struct Insides<'a> {
    sources: &'a Sources,
    robots: [Inside; MOST_ROBOTS],
}

impl<'a> Insides<'a> {
    /// Makes what is known before a match.
    pub fn new(sources: &'a Sources) -> Insides<'a> {
        Insides {
            sources,
            robots: [Inside::default(); MOST_ROBOTS],
        }
    }

    /// Hears a question.
    pub fn hear(&mut self, turn: Turn, question: Exchange) {
        if let Some(inside) = self.robots.get_mut(turn.robot) {
            let cycle = turn.cycle;
            inside.asked = Some(Asked { cycle, question });
        }
    }

    /// Returns where a robot is before a turn, its line and its function, if that is another instruction than the one
    /// that was reported last.
    pub fn line(&mut self, turn: Turn, pilot: &Pilot<'_>) -> Option<Event<'a>> {
        let inside = self.robots.get_mut(turn.robot)?;
        let address = pilot.machine().address();
        if inside.address == Some(address) {
            return None;
        }
        inside.address = Some(address);
        let (line, function) = self.sources.position(turn.robot, address);
        let fields = [Field::Number(i64::from(line)), Field::Text(function)];
        Some(Event::new("line", &fields))
    }

    /// Returns what a robot asked last, if that wasn't reported.
    pub fn question(&mut self, robot: usize) -> Option<Event<'static>> {
        let inside = self.robots.get_mut(robot)?;
        let asked = inside.asked?;
        if inside.told == asked.cycle {
            return None;
        }
        inside.told = asked.cycle;
        Some(asked_event(&asked))
    }
}

/// Reports whether where robots are before their turns of a cycle is where they are after an update, or at the start.
pub fn follows_update(cycle: u32) -> bool {
    cycle % UPDATE_CYCLES == 1
}

/// Makes the event of a question: its function, the arguments that this uses, the reply, and the cycle.
fn asked_event(asked: &Asked) -> Event<'static> {
    let question = asked.question;
    let [first, second] = question.arguments;
    let count = question.intrinsic.argument_count();
    let fields = [
        Field::Text(question.intrinsic.name()),
        used(first, count >= 1),
        used(second, count >= 2),
        Field::Number(i64::from(question.reply)),
        Field::Number(i64::from(asked.cycle)),
    ];
    Event::new("asked", &fields)
}

/// Returns an argument, empty if its function doesn't use it.
fn used(argument: i32, is_used: bool) -> Field<'static> {
    if is_used {
        Field::Number(i64::from(argument))
    } else {
        Field::Text("")
    }
}
