//! Rows of fields with tabs between them, on standard output.

ghost use Rattle.std.specs.Prelude.{◌≡◌, ◌&&◌, is_ok};
ghost use Rattle.trace.specs.Spans.{is_in_span};

use std::alloc::AllocError;
use tools::{Draft, Fault, Output, Span, Text};
use watching::{Event, Field, FilmRows, Listener, MOST_FIELDS, Turn};

/// Rows on a span of a match, which are written on standard output. After a fault nothing more is written, and `finish`
/// answers it.
#[derive(Drop)]
pub struct Rows<'a> {
    rt: &'a HostRuntime,
    /// Which robot and which cycles have rows.
    pub span: Span,
    /// Whether they are a film: have robots' ways and scans.
    pub is_film: bool,
    /// The rows that were added since the last `pass`.
    pub text: Draft,
    output: Output,
    state: Result<(), Fault>,
}

impl<'a> Rows<'a> {
    /// Makes rows, the first of which has the names of the columns.
    pub fn new(rt: &'a HostRuntime, span: Span, columns: &str) -> Rows<'a> {
        let mut rows = Rows {
            rt,
            span,
            is_film: false,
            text: Draft::new(rt.alloc()),
            output: Output::new(rt.alloc()),
            state: Ok(()),
        };
        writeln!(rows.text, "{columns}");
        rows.pass();
        rows
    }

    /// Reports whether nothing failed so far.
    pub fn are_fine(&self) -> bool
        ensures { result ≡ is_ok self.now.state }
    {
        self.state.is_ok()
    }

    /// Notes that memory was refused, if it was.
    pub fn note(&mut self, done: Result<(), AllocError>)
        ensures film { self.new.is_film ≡ self.old.is_film }
        ensures span { self.new.span ≡ self.old.span }
    {
        self.state = self.state.and(done.map_err(Fault::from));
    }

    /// Passes the rows on that were added, and writes them if they are many.
    pub fn pass(&mut self) {
        if self.state.is_ok() {
            self.state = self.passed();
        }
    }

    /// Moves the rows that were added to the end of those before, and writes all if they are many.
    fn passed(&mut self) -> Result<(), Fault> {
        self.text.move_behind(self.output.text())?;
        self.output.pass(self.rt)
    }

    /// Writes what is left, and returns the first fault if there was one.
    pub fn finish(mut self) -> Result<(), Fault> {
        self.pass();
        let rt = self.rt;
        self.state?;
        self.output.finish(rt)
    }
}

impl Listener for Rows<'_> {
    ghost shows = { λ rows cycle robot. rows.is_film && is_in_span rows.span cycle robot };

    /// Adds a row of an event, if its cycle and its robot are in the span.
    fn tell(&mut self, cycle: u32, robot: usize, event: &Event<'_>) {
        if self.span.has(cycle, robot) {
            add_event(&mut self.text, Turn { cycle, robot }, event);
        }
    }
}

impl FilmRows for Rows<'_> {
    fn follows(&self, cycle: u32, robot: usize) -> bool {
        self.is_film && self.span.has(cycle, robot)
    }

    /// Adds a row of an event in front of those that were added since the last `pass`.
    fn tell_before(&mut self, cycle: u32, robot: usize, event: &Event<'_>) {
        let mut row = Draft::new(self.rt.alloc());
        add_event(&mut row, Turn { cycle, robot }, event);
        let moved = row.move_behind(self.output.text());
        self.note(moved);
    }
}

/// Adds a row of an event to a text: its cycle, its robot, its kind, and its fields. Those that it doesn't have are
/// empty.
pub fn add_event(text: &mut Draft, turn: Turn, event: &Event<'_>) {
    add_turn(text, turn);
    text.add(event.kind);
    for n in 0..MOST_FIELDS {
        match event.fields.as_slice().get(n) {
            Some(Field::Number(number)) => write!(text, "\t{number}"),
            Some(Field::Text(field)) => write!(text, "\t{field}"),
            None => text.add("\t"),
        }
    }
    text.add("\n");
}

/// Adds the first columns of a row: a cycle, and a robot's number.
pub fn add_turn(text: &mut Draft, turn: Turn) {
    write!(text, "{}\t{}\t", turn.cycle, turn.robot.saturating_add(1));
}
