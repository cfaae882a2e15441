//! Cameras: what films a match as it is played.

ghost use Rattle.std.specs.Prelude.{◌≡◌, ◌≢◌, ◌<◌, ◌&&◌, ◌++◌, ◌∷◌, ℕ, List, [], Some, length, min, slice_get};
ghost use Rattle.arena.specs.Field as field;
ghost use Rattle.arena.specs.Representing.{RepresentsField};
ghost use Rattle.watching.specs.Heard.{Heard, asked_heard, death_heard, ends_heard, heard_of, is_first_scan, look_heard, looks_heard, news_heard, place_heard, restart_heard, scans_heard, shot_heard};
ghost use Rattle.watching.specs.Runs.{news_of};
ghost use Rattle.watching.specs.declared.seen.Seen.{Seen};

use crate::events::{Event, Field, Listener};
use crate::runs::Stance;
use crate::seen::Seen;
use crate::watcher::{Exchange, Turn};
use arena::{Arena, MOST_ROBOTS};
use code::Intrinsic;

/// The names of a film's columns, with tabs between them.
pub const FILM_COLUMNS: &str = "cycle\trobot\tkind\ta\tb\tc\td\te";

/// Takes the rows of a film, one by one.
pub trait FilmRows: Listener {
    /// Reports whether the film shows a robot in a cycle: has its way and its scans.
    fn follows(&self, cycle: u32, robot: usize) -> bool
        ensures { result ≡ Self.shows self.now cycle robot };

    /// Takes an event of an earlier cycle, which goes before those of the last update.
    fn tell_before(&mut self, cycle: u32, robot: usize, event: &Event<'_>)
        ensures heard { (events : List Heard) → Self.heard self.old events
            → Self.heard self.new (events ++ heard_of cycle robot event.now ∷ []) }
        ensures kept { Self.keeps self.new ≡ Self.keeps self.old }
        ensures shown { Self.shows self.new ≡ Self.shows self.old };
}

/// What films a match: it is given what robots do, looks at them after each update, and gives rows to what takes them.
#[derive(Drop)]
pub struct Camera<R> {
    /// What takes the rows.
    pub rows: R,
    robots: usize,
    seen: [Seen; MOST_ROBOTS],
}

impl<R: FilmRows> Camera<R> {
    /// Makes the camera of a match that was not begun.
    pub fn new(rows: R) -> Camera<R>
        ensures { result.rows ≡ rows }
    {
        Camera {
            rows,
            robots: 0,
            seen: [Seen::default(); MOST_ROBOTS],
        }
    }

    /// Films where the robots are at the start.
    pub fn begin(&mut self, arena: &Arena)
        ensures heard { (events : List Heard) (f : field.Field) → RepresentsField arena.now f
            → R.heard self.old.rows events
            → R.heard self.new.rows (events ++ looks_heard 0 self.old.seen f (R.shows self.old.rows 0)
            (length f.robots)) }
        ensures kept { R.keeps self.new.rows ≡ R.keeps self.old.rows }
        ensures robots { self.new.robots ≡ length arena.now.robots }
    {
        self.robots = arena.robot_count();
        self.look(0, arena);
    }

    /// Films what is seen of the robots after the update of a cycle: their deaths, and where their runs end and begin.
    pub fn look(&mut self, cycle: u32, arena: &Arena)
        ensures heard { (events : List Heard) (f : field.Field) → RepresentsField arena.now f
            → R.heard self.old.rows events
            → R.heard self.new.rows (events ++ looks_heard cycle self.old.seen f (R.shows self.old.rows cycle)
            (min self.old.robots (length f.robots))) }
        ensures kept { R.keeps self.new.rows ≡ R.keeps self.old.rows }
        ensures robots { self.new.robots ≡ self.old.robots }
    {
        for robot in 0..self.robots.min(arena.robot_count()) {
            self.look_at(cycle, robot, arena);
        }
    }

    /// Films what is seen of a robot after the update of a cycle.
    fn look_at(&mut self, cycle: u32, robot: usize, arena: &Arena)
        requires { robot < length arena.now.robots }
        ensures heard { (events : List Heard) (f : field.Field) → RepresentsField arena.now f
            → R.heard self.old.rows events
            → R.heard self.new.rows (events ++ look_heard cycle robot (slice_get self.old.seen robot) f
            (R.shows self.old.rows cycle robot)) }
        ensures kept { R.keeps self.new.rows ≡ R.keeps self.old.rows }
        ensures shown { R.shows self.new.rows ≡ R.shows self.old.rows }
        ensures robots { self.new.robots ≡ self.old.robots }
        ensures others { (other : ℕ) → other ≢ robot
            → slice_get self.new.seen other ≡ slice_get self.old.seen other }
    {
        if robot >= MOST_ROBOTS {
            return;
        }
        let died = self.seen[robot].look(arena.damage(robot), arena.alive(robot));
        self.tell_death(cycle, robot, died);
        if self.rows.follows(cycle, robot) {
            self.follow(robot, Stance::of(cycle, robot, arena));
        }
    }

    /// Films that a robot died in the update of a cycle, if it did.
    fn tell_death(&mut self, cycle: u32, robot: usize, died: bool)
        ensures heard { (events : List Heard) → R.heard self.old.rows events
            → R.heard self.new.rows (events ++ death_heard cycle robot died) }
        ensures kept { R.keeps self.new.rows ≡ R.keeps self.old.rows }
        ensures shown { R.shows self.new.rows ≡ R.shows self.old.rows }
        ensures rest { self.new.seen ≡ self.old.seen }
        ensures robots { self.new.robots ≡ self.old.robots }
    {
        if died {
            self.rows.tell(cycle, robot, &Event::new("death", &[]));
        }
    }

    /// Films where a robot is, if a run ends or begins there.
    fn follow(&mut self, robot: usize, stance: Stance)
        requires { robot < length self.now.seen }
        ensures heard { (events : List Heard) (seen : Seen) → slice_get self.old.seen robot ≡ Some seen
            → R.heard self.old.rows events
            → R.heard self.new.rows (events ++ news_heard robot (news_of seen.run stance)) }
        ensures kept { R.keeps self.new.rows ≡ R.keeps self.old.rows }
        ensures shown { R.shows self.new.rows ≡ R.shows self.old.rows }
        ensures robots { self.new.robots ≡ self.old.robots }
        ensures others { (other : ℕ) → other ≢ robot
            → slice_get self.new.seen other ≡ slice_get self.old.seen other }
    {
        let news = self.seen[robot].run.go_on(stance);
        self.tell_end(robot, &news.end);
        if let Some(begin) = news.begin {
            self.rows
                .tell(begin.cycle, robot, &Event::stance("at", &begin));
        }
    }

    /// Films where a robot's run ended, if that is to be told.
    fn tell_end(&mut self, robot: usize, end: &Option<Stance>)
        ensures heard { (events : List Heard) → R.heard self.old.rows events
            → R.heard self.new.rows (events ++ place_heard robot end.now) }
        ensures kept { R.keeps self.new.rows ≡ R.keeps self.old.rows }
        ensures shown { R.shows self.new.rows ≡ R.shows self.old.rows }
        ensures rest { self.new.seen ≡ self.old.seen }
        ensures robots { self.new.robots ≡ self.old.robots }
    {
        if let Some(end) = end {
            self.rows
                .tell_before(end.cycle, robot, &Event::stance("at", end));
        }
    }

    /// Films what a robot asks in its turn, by the arguments and the reply: a shot, or the first scan since the last update.
    pub fn ask(&mut self, turn: Turn, question: Exchange, arena: &Arena)
        requires { turn.robot < length arena.now.robots }
        ensures heard { (events : List Heard) (f : field.Field) → RepresentsField arena.now f
            → R.heard self.old.rows events
            → R.heard self.new.rows (events ++ asked_heard turn.cycle turn.robot question.intrinsic question.arguments
            question.reply f (is_first_scan self.old.seen turn.robot && R.shows self.old.rows turn.cycle turn.robot)) }
        ensures kept { R.keeps self.new.rows ≡ R.keeps self.old.rows }
    {
        let Turn { cycle, robot } = turn;
        let (arguments, reply) = (question.arguments, question.reply);
        match question.intrinsic {
            Intrinsic::Cannon => self.shoot(cycle, robot, arguments, reply, arena),
            Intrinsic::Scan => self.scan(cycle, robot, arguments, reply),
            Intrinsic::Drive
            | Intrinsic::Damage
            | Intrinsic::Speed
            | Intrinsic::LocX
            | Intrinsic::LocY
            | Intrinsic::Rand
            | Intrinsic::Sqrt
            | Intrinsic::Sin
            | Intrinsic::Cos
            | Intrinsic::Tan
            | Intrinsic::Atan => {}
        }
    }

    /// Films a shot, by these arguments of `cannon` and its reply: a missile and where it is fired, or a refused shot.
    fn shoot(&mut self, cycle: u32, robot: usize, arguments: [i32; 2], reply: i32, arena: &Arena)
        requires { robot < length arena.now.robots }
        ensures heard { (events : List Heard) (f : field.Field) → RepresentsField arena.now f
            → R.heard self.old.rows events
            → R.heard self.new.rows (events ++ shot_heard cycle robot arguments reply f ∷ []) }
        ensures kept { R.keeps self.new.rows ≡ R.keeps self.old.rows }
    {
        let [degree, range] = arguments;
        let event = if reply == 0 {
            Event::of_numbers("refused", &[degree, range])
        } else {
            let (x, y) = arena.place(robot);
            Event::of_numbers("shot", &[degree, range, i32::from(x), i32::from(y)])
        };
        self.rows.tell(cycle, robot, &event);
    }

    /// Films a scan, by these arguments and this reply, if it is the robot's first one since the last update.
    fn scan(&mut self, cycle: u32, robot: usize, arguments: [i32; 2], reply: i32)
        ensures heard { (events : List Heard) → R.heard self.old.rows events
            → R.heard self.new.rows (events ++ scans_heard cycle robot arguments reply
            (is_first_scan self.old.seen robot && R.shows self.old.rows cycle robot)) }
        ensures kept { R.keeps self.new.rows ≡ R.keeps self.old.rows }
    {
        let Some(seen) = self.seen.get_mut(robot) else {
            return;
        };
        if seen.scan() && self.rows.follows(cycle, robot) {
            let [degree, resolution] = arguments;
            let event = Event::of_numbers("scan", &[degree, resolution, reply]);
            self.rows.tell(cycle, robot, &event);
        }
    }

    /// Films that a robot restarts: the word of what for, the function and the line that it is in.
    pub fn restart<'n>(
        &mut self,
        cycle: u32,
        robot: usize,
        cause: &'n str,
        function: &'n str,
        line: u32,
    )
        ensures heard { (events : List Heard) → R.heard self.old.rows events
            → R.heard self.new.rows (events ++ restart_heard cycle robot cause.entry function.entry line ∷ []) }
        ensures kept { R.keeps self.new.rows ≡ R.keeps self.old.rows }
    {
        let line = Field::Number(i64::from(line));
        let fields = [Field::Text(cause), Field::Text(function), line];
        self.rows
            .tell(cycle, robot, &Event::new("restart", &fields));
    }

    /// Films where the robots' runs end, and their damages after a cycle, as events of this kind.
    pub fn end(&mut self, cycle: u32, kind: &'static str)
        ensures heard { (events : List Heard) → R.heard self.old.rows events
            → R.heard self.new.rows (events ++ ends_heard cycle kind.entry.now self.old.seen
            (min self.old.robots MOST_ROBOTS)) }
        ensures kept { R.keeps self.new.rows ≡ R.keeps self.old.rows }
    {
        for robot in 0..self.robots.min(MOST_ROBOTS) {
            let seen = self.seen[robot];
            self.tell_end(robot, &seen.run.end());
            let damage = i32::from(seen.damage);
            self.rows
                .tell(cycle, robot, &Event::of_numbers(kind, &[damage]));
        }
    }
}
