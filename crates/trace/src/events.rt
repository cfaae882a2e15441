//! Events of a match, and films of it: events with the robots' ways and scans beside them.

ghost use Rattle.std.specs.Prelude.{is_ok};

use crate::aims::{Aims, Miss};
use crate::insides::{Insides, follows_update};
use crate::requests::{Form, Task};
use crate::rows::{Rows, add_event};
use crate::tellers::Teller;
use arena::{Arena, MOST_ROBOTS};
use code::Cause;
use notes::Sources;
use tools::Fault;
use watching::{
    Camera, Event, Exchange, FILM_COLUMNS, Field, FilmRows, Listener, Pilot, Turn, Watcher, word_of,
};

/// What writes events as they happen: for a film with the robots' names, ways and scans.
#[derive(Drop)]
pub struct Events<'a> {
    camera: Camera<Rows<'a>>,
    sources: &'a Sources,
    aims: Aims,
    /// What is known of the robots from inside, if that is reported.
    insides: Option<Insides<'a>>,
}

impl<'a> Events<'a> {
    /// Makes the events of a match that was not begun.
    pub fn new(task: Task<'a>) -> Events<'a> {
        let mut rows = Rows::new(task.rt, task.request.span, FILM_COLUMNS);
        rows.is_film = !matches!(task.request.form, Form::Events);
        Events {
            camera: Camera::new(rows),
            sources: task.sources,
            aims: Aims::new(),
            insides: match task.request.form {
                Form::Inside => Some(Insides::new(task.sources)),
                _ => None,
            },
        }
    }

    /// Writes the names of this number of robots.
    fn name_robots(&mut self, robots: usize) {
        let rows = &mut self.camera.rows;
        for robot in 0..robots {
            if let Some(noted) = self.sources.robot(robot)
                && rows.span.has_robot(robot)
            {
                let name = [Field::Text(noted.note.name.as_str())];
                let start = Turn { cycle: 0, robot };
                add_event(&mut rows.text, start, &Event::new("name", &name));
            }
        }
    }

    /// Writes where a robot is in its source before a turn, after this cycle, and what it asked last.
    fn tell_inside(&mut self, cycle: u32, turn: Turn, pilot: &Pilot<'_>) {
        let Some(insides) = &mut self.insides else {
            return;
        };
        let robot = turn.robot;
        let news = [insides.line(turn, pilot), insides.question(robot)];
        for event in news.iter().flatten() {
            self.camera.rows.tell_before(cycle, robot, event);
        }
    }

    /// Writes by how much the bursts of an update missed.
    fn tell_misses(&mut self, cycle: u32, arena: &Arena) {
        for miss in &self.aims.misses(arena) {
            self.camera.rows.tell(cycle, miss.robot, &event_of(miss));
        }
    }
}

impl Watcher for Events<'_> {
    ghost asks_more = { λ events _. is_ok events.camera.rows.state };

    fn begins(&mut self, arena: &Arena) {
        if self.camera.rows.is_film {
            self.name_robots(arena.robot_count());
        }
        self.camera.begin(arena);
        self.camera.rows.pass();
    }

    fn turn(&mut self, turn: Turn, pilot: &Pilot<'_>) {
        let before = turn.cycle.saturating_sub(1);
        if follows_update(turn.cycle) && self.camera.rows.span.has(before, turn.robot) {
            self.tell_inside(before, turn, pilot);
        }
    }

    fn asked(&mut self, turn: Turn, _: &Pilot<'_>, question: Exchange, arena: &Arena) {
        self.aims.hear(turn, &question, arena);
        if let Some(insides) = &mut self.insides {
            insides.hear(turn, question);
        }
        self.camera.ask(turn, question, arena);
    }

    fn restarts(&mut self, turn: Turn, pilot: &Pilot<'_>, cause: Cause) {
        let Turn { cycle, robot } = turn;
        let (line, function) = self.sources.position(robot, pilot.machine().address());
        let cause = word_of(cause);
        self.camera.restart(cycle, robot, cause, function, line);
    }

    fn updates(&mut self, cycle: u32, arena: &Arena) {
        self.aims.choose(arena);
        self.camera.rows.tell_update(cycle, arena);
    }

    /// Writes what happened to the robots in an update, up to the span's last cycle.
    fn updated(&mut self, cycle: u32, arena: &Arena) {
        if !self.camera.rows.is_film {
            self.tell_misses(cycle, arena);
        }
        if cycle <= self.camera.rows.span.to {
            self.camera.look(cycle, arena);
        }
        self.camera.rows.pass();
    }

    fn wants_more(&self, _: u32) -> bool {
        self.camera.rows.are_fine()
    }
}

impl Teller for Events<'_> {
    /// Writes where the robots' ways end, and their damages after the last cycle of the match. Those of a film that
    /// ends before it are another kind.
    fn finish(mut self, cycles: u32) -> Result<(), Fault> {
        let to = self.camera.rows.span.to;
        if self.camera.rows.is_film && to < cycles {
            self.camera.end(to, "stop");
        } else {
            self.camera.end(cycles, "end");
        }
        self.camera.rows.finish()
    }
}

/// Makes the event that a burst missed: its target, how far, how much too far and to the left, and the age of the scan.
fn event_of(miss: &Miss) -> Event<'static> {
    let target = (miss.target.min(MOST_ROBOTS) as i32).saturating_add(1);
    let distance = i32::try_from(miss.distance).unwrap_or(i32::MAX);
    let numbers = [target, distance, miss.far, miss.left];
    let mut event = Event::of_numbers("miss", &numbers);
    if let Some(age) = miss.age {
        let _ = event.fields.try_push(Field::Number(i64::from(age)));
    }
    event
}
