//! Robots from inside: where a robot is at a moment of a match, and in which cycles it is somewhere.

ghost use Rattle.std.specs.Prelude.{◌≡◌, ◌<◌, ◌≤◌, List, length};
ghost use Rattle.grammar.specs.Tree.{File};
ghost use Rattle.code.specs.Codes.{AreProgramsOf};
ghost use Rattle.code.specs.Generation.{Program};
ghost use Rattle.battles.specs.Battle.{first_state};
ghost use Rattle.battles.specs.Pairing.{paired, robots_of};
ghost use Rattle.watching.specs.Played.{codes_of};
ghost use Rattle.watching.specs.Moments.{IsMoment};
ghost use Rattle.watching.specs.Searches.{IsSoughtCycle};
ghost use Rattle.page.specs.Insides.{OfSought};

use crate::compiled_robots::CompiledRobots;
use crate::films::add_columns;
use crate::pilots::pilots_of;
use crate::rows::Row;
use crate::sheets::Sheet;
use crate::targets::Target;
use arena::MOST_ROBOTS;
use code::{Intrinsic, Machine, Want};
use series::Settings;
use watching::{
    Asked, Event, Field, Moment, Pilot, Sought, SoughtCycle, moment_at, sought_cycle, word_of,
};

/// Writes on a blank sheet what is asked of the robot of a target in the first match of compiled robots. If it is sought
/// that is the first or the last cycle, after or before that of the target, after which it is at one of the target's
/// instructions, if there is one; and else where it is after the target's cycle, or at the end if that comes before.
#[tactic(auto, using(crate::proofs::FilmedRobots::two_paired))]
pub(crate) fn tell_inside(
    settings: &Settings<'_>,
    compiled: &CompiledRobots,
    target: &Target,
    is_sought: bool,
    sheet: &mut Sheet,
)
    requires { 0 < length compiled.now.programs.items }
{
    add_columns(sheet);
    let robot = target.robot as usize;
    if robot >= compiled.robots() {
        return;
    }
    let mut pilots = pilots_of(compiled);
    let pilots = &mut pilots[..compiled.robots()];
    if is_sought {
        let marked = target.marked();
        let sought = Sought::Address(&marked, target.frames as usize);
        if let Some(cycle) = found_in(settings, pilots, robot, &sought, target.which()) {
            sheet.add(Row::new(cycle, robot, &Event::new("found", &[])).as_slice());
        }
        return;
    }
    let moment = moment_in(settings, pilots, robot, target.cycle);
    let cycle = moment.game.ending().cycles;
    let mut inside = Inside {
        sheet,
        cycle,
        robot,
    };
    let played = &*pilots;
    inside.tell(&moment, played[robot].machine());
}

/// Plays the first match of the settings up to the moment after a cycle, and returns where a robot is then. The pilots
/// are at this moment too.
fn moment_in(settings: &Settings<'_>, pilots: &mut [Pilot<'_>], robot: usize, cycle: u32) -> Moment
    requires some { 2 ≤ length pilots.old }
    requires most { length pilots.old ≤ MOST_ROBOTS }
    requires inside { robot < length pilots.old }
    ensures moment { (programs : List Program) (files : List File) → codes_of pilots.old ≡ paired programs
        → AreProgramsOf programs settings.now.profile files → IsMoment (robots_of settings.now.profile files)
        (first_state (length (robots_of settings.now.profile files)) settings.now.seed settings.now.first)
        settings.now.limit robot cycle pilots.new result }
    ensures codes { codes_of pilots.new ≡ codes_of pilots.old }
{
    let (seed, number, limit) = (settings.seed(), settings.first(), settings.limit());
    moment_at(pilots, robot, cycle, seed, number, limit)
}

/// Returns the cycle that is looked for, of those in which what is sought happens to a robot in the first match of the
/// settings.
fn found_in(
    settings: &Settings<'_>,
    pilots: &mut [Pilot<'_>],
    robot: usize,
    sought: &Sought<'_>,
    which: SoughtCycle,
) -> Option<u32>
    requires some { 2 ≤ length pilots.old }
    requires most { length pilots.old ≤ MOST_ROBOTS }
    requires inside { robot < length pilots.old }
    ensures { OfSought settings.now pilots.old robot sought.now (λ happens last. IsSoughtCycle which happens last result) }
{
    let (seed, number, limit) = (settings.seed(), settings.first(), settings.limit());
    sought_cycle(pilots, robot, sought, which, seed, number, limit)
}

/// What writes rows about a robot from inside.
#[derive(Drop)]
struct Inside<'a> {
    sheet: &'a mut Sheet,
    cycle: u32,
    robot: usize,
}

impl Inside<'_> {
    /// Writes where the robot is, whose machine this is.
    fn tell(&mut self, moment: &Moment, machine: &Machine) {
        self.tell_state(moment, machine);
        self.tell_next(moment);
        if let Some(asked) = moment.last {
            self.tell_asked(&asked);
        }
        for frame in machine.frames() {
            let (base, back) = (i32::from(frame.base), i32::from(frame.back));
            self.put(&Event::of_numbers("frame", &[base, back]));
        }
        self.tell_values("word", machine.words());
        self.tell_values("external", machine.externals());
    }

    /// Writes a row about the robot.
    fn put(&mut self, event: &Event<'_>) {
        self.sheet
            .add(Row::new(self.cycle, self.robot, event).as_slice());
    }

    /// Writes the next instruction's address, where the variables of its function begin, whether the robot lives, and
    /// whether the match is over.
    fn tell_state(&mut self, moment: &Moment, machine: &Machine) {
        let address = i32::try_from(machine.address()).unwrap_or(i32::MAX);
        let home = i32::from(machine.home());
        let (alive, over) = (moment.is_alive, moment.game.ending().is_over);
        let numbers = [address, home, i32::from(alive), i32::from(over)];
        self.put(&Event::of_numbers("moment", &numbers));
    }

    /// Writes the question or the restart of the next cycle, if it has one.
    fn tell_next(&mut self, moment: &Moment) {
        if moment.game.ending().is_over {
            return;
        }
        if let Want::Ask(intrinsic, arguments) = moment.next {
            self.put(&question_event("asks", intrinsic, arguments));
        }
        if let Some(cause) = moment.cause {
            let word = Field::Text(word_of(cause));
            self.put(&Event::new("restarts", &[word]));
        }
    }

    /// Writes the last question, with its cycle and its reply.
    fn tell_asked(&mut self, asked: &Asked) {
        let question = asked.question;
        let mut event = question_event("asked", question.intrinsic, question.arguments);
        let _ = event
            .fields
            .try_push(Field::Number(i64::from(question.reply)));
        self.sheet
            .add(Row::new(asked.cycle, self.robot, &event).as_slice());
    }

    /// Writes a row of this kind for each value.
    fn tell_values(&mut self, kind: &'static str, values: &[i32]) {
        for value in values {
            self.put(&Event::of_numbers(kind, &[*value]));
        }
    }
}

/// Returns the event of a question: its function, how many arguments that uses, and both arguments.
fn question_event(kind: &'static str, intrinsic: Intrinsic, arguments: [i32; 2]) -> Event<'static> {
    let [first, second] = arguments;
    let fields = [
        Field::Text(intrinsic.name()),
        Field::Number(i64::from(intrinsic.argument_count())),
        Field::Number(i64::from(first)),
        Field::Number(i64::from(second)),
    ];
    Event::new(kind, &fields)
}
