//! Films of matches: what there is to see of one, row by row.

ghost use Rattle.std.specs.Prelude.{◌≡◌, ◌<◌, ◌≤◌, ◌/◌, length};
ghost use Rattle.page.specs.Asking.{film_asks, kept_by};
ghost use Rattle.page.specs.Sheets.{refused};

use crate::compiled_robots::CompiledRobots;
use crate::missiles::FiredMissile;
use crate::rows::Row;
use crate::sheets::Sheet;
use crate::stretches::Stretch;
use arena::{Arena, MOST_BURSTS};
use code::{Cause, Intrinsic};
use derivations::SourcePositions;
use watching::{
    Camera, Event, Exchange, FILM_COLUMNS, FilmRows, Listener, Pilot, Place, Stance, Turn,
    UPDATE_CYCLES, Watcher, word_of,
};

/// The rows of a film on a sheet: of all of it, or of a stretch. A full sheet takes no more.
#[derive(Drop)]
struct SheetRows<'a> {
    sheet: &'a mut Sheet,
    stretch: Option<Stretch>,
    updates: u32,
    skipped: u32,
}

impl SheetRows<'_> {
    /// Reports whether the film shows what happens now.
    fn is_told(&self) -> bool {
        match &self.stretch {
            None => true,
            Some(stretch) => stretch.holds(self.updates),
        }
    }

    /// Writes a row, unless it is one of the first ones that are left out.
    fn put(&mut self, cycle: u32, robot: usize, event: &Event<'_>)
        ensures { kept_by self.new ≡ kept_by self.old }
    {
        if self.skipped > 0 {
            self.skipped -= 1;
            return;
        }
        self.sheet.add(Row::new(cycle, robot, event).as_slice());
    }
}

impl Listener for SheetRows<'_> {
    ghost keeps = { kept_by };

    /// Writes a row of an event, if the film shows what happens now.
    fn tell(&mut self, cycle: u32, robot: usize, event: &Event<'_>) {
        if self.is_told() {
            self.put(cycle, robot, event);
        }
    }
}

impl FilmRows for SheetRows<'_> {
    fn follows(&self, _: u32, _: usize) -> bool {
        true
    }

    /// Writes the row behind those of the update: the page keeps the rows of each kind apart.
    fn tell_before(&mut self, cycle: u32, robot: usize, event: &Event<'_>) {
        self.tell(cycle, robot, event);
    }
}

/// What writes a film on a sheet as its match is played.
#[derive(Drop)]
pub(crate) struct Film<'a> {
    camera: Camera<SheetRows<'a>>,
    compiled: &'a CompiledRobots,
    positions: &'a [Option<SourcePositions>],
    missiles: [FiredMissile; MOST_BURSTS],
}

impl<'a> Film<'a> {
    /// Begins a film of a stretch, or of a whole match, of compiled robots on a sheet. These are the positions of each
    /// file's instructions. The given number of rows are left out.
    pub(crate) fn new(
        sheet: &'a mut Sheet,
        compiled: &'a CompiledRobots,
        positions: &'a [Option<SourcePositions>],
        stretch: Option<Stretch>,
        skipped: u32,
    ) -> Film<'a>
        ensures stretch { result.camera.rows.stretch ≡ stretch }
        ensures sheet { result.camera.rows.sheet.ghost_name ≡ sheet.entry.ghost_name }
    {
        add_columns(sheet);
        let rows = SheetRows {
            sheet,
            stretch,
            updates: 0,
            skipped,
        };
        Film {
            camera: Camera::new(rows),
            compiled,
            positions,
            missiles: [FiredMissile::default(); MOST_BURSTS],
        }
    }

    /// Ends the film of a match that was over after this cycle: writes where the robots' ways end, and their damages.
    pub(crate) fn end(&mut self, cycle: u32) {
        self.camera.rows.stretch = None;
        self.camera.end(cycle, "end");
    }

    /// Returns the line that the instruction of an address comes from, 0 if it isn't known. A single file's program is
    /// that of both robots.
    fn line(&self, robot: usize, address: usize) -> u32 {
        let file = robot.min(self.positions.len().saturating_sub(1));
        match self.positions.get(file) {
            Some(Some(positions)) => positions.line(address),
            _ => 0,
        }
    }

    /// Takes the film apart, and returns the sheet.
    pub fn into_sheet(self) -> &'a mut Sheet
        ensures value { result.now ≡ self.entry.camera.rows.sheet.now }
        ensures name { result.ghost_name ≡ self.entry.camera.rows.sheet.ghost_name }
    {
        let Film { camera, .. } = self;
        let Camera { rows, .. } = camera;
        rows.sheet
    }

    /// Writes where the robots are at a border of the stretch, and which missiles are in the air at its start.
    fn tell_border(&mut self, cycle: u32, arena: &Arena)
        ensures { kept_by self.new.camera.rows ≡ kept_by self.old.camera.rows }
    {
        let updates = self.camera.rows.updates;
        let Some(stretch) = self.camera.rows.stretch else {
            return;
        };
        if !stretch.is_bordered(updates) {
            return;
        }
        for robot in 0..arena.robot_count() {
            let stance = Stance::of(cycle, robot, arena);
            self.camera
                .rows
                .put(cycle, robot, &Event::stance("stands", &stance));
        }
        if updates == stretch.from {
            self.tell_missiles();
        }
    }

    /// Writes which missiles are in the air.
    fn tell_missiles(&mut self)
        ensures { kept_by self.new.camera.rows ≡ kept_by self.old.camera.rows }
    {
        for slot in 0..MOST_BURSTS {
            let missile = self.missiles[slot];
            let rows = &mut self.camera.rows;
            if missile.flies(rows.updates) {
                rows.put(missile.cycle, missile.robot, &missile_event(&missile));
            }
        }
    }

    /// Keeps a missile that is fired, in the place of one that has burst: of each robot two are in the air at most.
    fn keep(&mut self, missile: FiredMissile)
        ensures { self.new.camera ≡ self.old.camera }
    {
        for slot in 0..MOST_BURSTS {
            if !self.missiles[slot].flies(self.camera.rows.updates) {
                self.missiles[slot] = missile;
                return;
            }
        }
    }
}

impl Watcher for Film<'_> {
    ghost keeps = { λ film. kept_by film.camera.rows };

    ghost asks_more = { λ film cycle. film_asks film.camera.rows.stretch (cycle / 15)
        (refused film.camera.rows.sheet.now) };

    fn begins(&mut self, arena: &Arena) {
        self.tell_border(0, arena);
        self.camera.begin(arena);
    }

    fn turn(&mut self, _: Turn, _: &Pilot<'_>) {}

    /// Films a question, but for a refused shot; keeps a missile that is fired.
    fn asked(&mut self, turn: Turn, _: &Pilot<'_>, question: Exchange, arena: &Arena) {
        let is_shot = question.intrinsic == Intrinsic::Cannon;
        if is_shot && question.reply == 0 {
            return;
        }
        self.camera.ask(turn, question, arena);
        if is_shot {
            let Turn { cycle, robot } = turn;
            let place = Place::of(arena, robot);
            self.keep(FiredMissile::new(robot, cycle, place, question.arguments));
        }
    }

    fn restarts(&mut self, turn: Turn, pilot: &Pilot<'_>, cause: Cause) {
        if !self.camera.rows.is_told() {
            return;
        }
        let address = pilot.machine().address();
        let function = function_name(self.compiled, turn.robot, address);
        let line = self.line(turn.robot, address);
        self.camera
            .restart(turn.cycle, turn.robot, word_of(cause), function, line);
    }

    fn updates(&mut self, cycle: u32, arena: &Arena) {
        if self.camera.rows.is_told() {
            self.camera.rows.tell_update(cycle, arena);
        }
    }

    fn updated(&mut self, cycle: u32, arena: &Arena) {
        self.camera.look(cycle, arena);
        self.camera.rows.updates = cycle / UPDATE_CYCLES;
        self.tell_border(cycle, arena);
    }

    /// Reports whether the stretch isn't past, and the sheet isn't full.
    fn wants_more(&self, cycle: u32) -> bool {
        let rows = &self.camera.rows;
        let is_past = match &rows.stretch {
            None => false,
            Some(stretch) => stretch.is_past(cycle / UPDATE_CYCLES),
        };
        !is_past && rows.sheet.refused() == 0
    }
}

/// Writes the first line of a film: the names of its columns.
pub(crate) fn add_columns(sheet: &mut Sheet) {
    sheet.add(FILM_COLUMNS.as_bytes());
    sheet.add(b"\n");
}

/// Returns the name of a robot's function that holds an address.
fn function_name(compiled: &CompiledRobots, robot: usize, address: usize) -> &str {
    match compiled.named(robot) {
        Some(named) => named.function_name(named.function(address)),
        None => "?",
    }
}

/// Returns the event that a missile is in the air: what it was fired with, and where.
fn missile_event(missile: &FiredMissile) -> Event<'static> {
    let (x, y) = (i32::from(missile.x), i32::from(missile.y));
    Event::of_numbers("flies", &[missile.degree, missile.range, x, y])
}
