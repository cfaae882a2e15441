//! Watched variables: a row for each change of one.

ghost use Rattle.std.specs.Prelude.{◌≡◌, ◌≤◌, false, length};

use crate::FRAME;
use crate::requests::Task;
use crate::rows::{Rows, add_turn};
use arena::MOST_ROBOTS;
use code::Machine;
use grammar::Var;
use notes::{NotedProgram, Variable, variables_named};
use std::alloc::{AllocError, Global};
use tools::{Fault, Plain};
use watching::{Game, Nobody, Pilot, Turn};

/// The names of the columns.
const COLUMNS: &str = "cycle\trobot\tfunction\tline\tname\tbefore\tafter";

/// A variable that is watched, its name, and its value before the cycle.
#[derive(Clone, Copy)]
struct Watched<'a> {
    name: &'a str,
    variable: Variable,
    before: i32,
}

/// A robot whose variables are watched, and where it was before the cycle.
#[derive(Drop)]
struct Robot<'a> {
    number: usize,
    noted: NotedProgram<'a>,
    watched: Vec<Watched<'a>>,
    is_alive: bool,
    address: usize,
    home: u16,
}

/// Plays the match, and writes a row for each cycle in which a watched variable of a chosen robot gets another value:
/// one of a function within one life of it, as `watching::Sought` says.
pub fn tell_changes(task: Task<'_>, pilots: &mut [Pilot<'_>]) -> Result<(), Fault>
    requires some { 2 ≤ length pilots.old }
    requires most { length pilots.old ≤ MOST_ROBOTS }
{
    let mut robots = watched_robots(task, pilots.len())?;
    let mut rows = Rows::new(task.rt, task.request.span, COLUMNS);
    let wish = &task.request.wish;
    let mut game = Game::new(pilots, wish.seed(), wish.first(), wish.limit());
    for _ in 0..wish.limit() {
        if game.ending().is_over || !rows.are_fine() {
            break;
        }
        run_cycle(&mut game, pilots, robots.as_mut_slice(), &mut rows);
    }
    rows.finish()
}

/// Plays the next cycle of a match that isn't over, and adds its rows.
fn run_cycle(
    game: &mut Game,
    pilots: &mut [Pilot<'_>],
    robots: &mut [Robot<'_>],
    rows: &mut Rows<'_>,
)
    requires manned { length game.old.arena.robots ≡ length pilots.old }
    requires goes_on { game.old.ending.is_over ≡ false }
    ensures manned { length game.new.arena.robots ≡ length pilots.new }
{
    for robot in robots.iter_mut() {
        robot.look(game, pilots);
    }
    game.cycle(pilots, &mut Nobody);
    let cycle = game.ending().cycles;
    for robot in robots.iter() {
        robot.tell(cycle, pilots, rows);
    }
    rows.pass();
}

impl Robot<'_> {
    /// Looks at the robot before a cycle.
    fn look(&mut self, game: &Game, pilots: &[Pilot<'_>]) {
        let Some(pilot) = pilots.get(self.number) else {
            return;
        };
        let machine = pilot.machine();
        self.is_alive = self.number < game.arena().robot_count() && game.arena().alive(self.number);
        self.address = machine.address();
        self.home = machine.home();
        for watched in self.watched.as_mut_slice() {
            watched.before = value_of(machine, watched.variable);
        }
    }

    /// Adds a row for each variable that the cycle changed, if the robot began it alive.
    fn tell(&self, cycle: u32, pilots: &[Pilot<'_>], rows: &mut Rows<'_>) {
        if !self.is_alive || !rows.span.has(cycle, self.number) {
            return;
        }
        let Some(pilot) = pilots.get(self.number) else {
            return;
        };
        for watched in &self.watched {
            let after = value_of(pilot.machine(), watched.variable);
            if after != watched.before && self.has_seen(pilot.machine(), watched.variable) {
                let robot = self.number;
                let (line, function) = self.noted.position(self.address);
                let (name, before) = (watched.name, watched.before);
                add_turn(&mut rows.text, Turn { cycle, robot });
                writeln!(rows.text, "{function}\t{line}\t{name}\t{before}\t{after}");
            }
        }
    }

    /// Reports whether a variable was seen before and after the cycle: one of a function is only within one life of it.
    fn has_seen(&self, machine: &Machine, variable: Variable) -> bool {
        match variable {
            Variable::External(_) => true,
            Variable::Local(function, _) => {
                let named = self.noted.named();
                named.function(self.address) == function
                    && named.function(machine.address()) == function
                    && machine.home() == self.home
            }
        }
    }
}

/// Returns the value of a variable: one of a function as if that were the present one.
fn value_of(machine: &Machine, variable: Variable) -> i32 {
    match variable {
        Variable::External(number) => machine.variable(Var::External(number)),
        Variable::Local(_, number) => machine.variable(Var::Local(number)),
    }
}

/// Returns those of this number of robots that are looked at, each with its variables that are watched. A name that none
/// of them has is wrong usage.
fn watched_robots(task: Task<'_>, count: usize) -> Result<Vec<Robot<'_>>, Fault> {
    let names = task.request.names;
    let mut robots = Vec::new(task.rt.alloc());
    for number in 0..count {
        if task.request.span.has_robot(number)
            && let Some(noted) = task.sources.robot(number)
        {
            let robot = watched_robot(task.rt.alloc(), names, number, noted)?;
            robots.push(robot).map_err(AllocError::from)?;
        }
    }
    for name in names.split(',') {
        if !is_watched(robots.as_slice(), name) {
            let program = FRAME.name;
            let _ = eprintln!(task.rt; "{program}: --watch {}: no variable", Plain(name));
            return Err(Fault::Usage);
        }
    }
    Ok(robots)
}

/// Returns a robot with its variables of these names.
fn watched_robot<'a>(
    alloc: Global,
    names: &'a str,
    number: usize,
    noted: NotedProgram<'a>,
) -> Result<Robot<'a>, AllocError> {
    let mut watched = Vec::new(alloc);
    for name in names.split(',') {
        for variable in &variables_named(alloc, &noted.note.names, name)? {
            watched.push(Watched {
                name,
                variable: *variable,
                before: 0,
            })?;
        }
    }
    Ok(Robot {
        number,
        noted,
        watched,
        is_alive: false,
        address: 0,
        home: 0,
    })
}

/// Reports whether one of some robots has a variable of a name.
fn is_watched(robots: &[Robot<'_>], name: &str) -> bool {
    for robot in robots {
        for watched in &robot.watched {
            if watched.name == name {
                return true;
            }
        }
    }
    false
}
