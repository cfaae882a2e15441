//! Sums of matches: what each robot did and suffered, and where its time went.

ghost use Rattle.std.specs.Prelude.{◌<◌, ◌≤◌, length};

use crate::aims::Aims;
use crate::misses::count_miss;
use crate::reports::{Played, add_report};
use crate::requests::Task;
use crate::sums_objects::add_object;
use crate::tallies::{RobotCounts, add};
use arena::{Arena, MOST_ROBOTS};
use code::Cause;
use std::alloc::AllocError;
use tools::{Draft, Fault, write_text};
use watching::{Exchange, Pilot, Source, Turn, Watcher, losses, play};

/// Plays the matches that are asked for, one after the other, and writes their sums.
pub fn tell_sums(task: Task<'_>, pilots: &mut [Pilot<'_>]) -> Result<(), Fault>
    requires some { 2 ≤ length pilots.old }
    requires most { length pilots.old ≤ MOST_ROBOTS }
{
    let wish = &task.request.wish;
    let mut sums = Sums::new(task, pilots)?;
    let mut played = Played::none(wish.first());
    for number in 0..task.request.matches {
        if number > 0 {
            sums.end_match();
        }
        let last = wish.first().saturating_add(number);
        let ending = play(pilots, &mut sums, wish.seed(), last, wish.limit());
        played.add(last, ending.cycles);
    }
    sums.write(played)
}

/// Plays the matches that are asked for, one after the other, and writes an object of the sums of each.
pub fn tell_objects(task: Task<'_>, pilots: &mut [Pilot<'_>]) -> Result<(), Fault>
    requires some { 2 ≤ length pilots.old }
    requires most { length pilots.old ≤ MOST_ROBOTS }
{
    let wish = &task.request.wish;
    for number in 0..task.request.matches {
        let number = wish.first().saturating_add(number);
        let mut sums = Sums::new(task, pilots)?;
        let ending = play(pilots, &mut sums, wish.seed(), number, wish.limit());
        sums.write_object(number, ending.cycles)?;
    }
    Ok(())
}

/// What counts. The sums are written when the matches are over.
#[derive(Drop)]
pub struct Sums<'a> {
    task: Task<'a>,
    tallies: Vec<RobotCounts>,
    aims: Aims,
}

impl<'a> Sums<'a> {
    /// Makes the sums of matches that were not begun, between these pilots.
    pub fn new(task: Task<'a>, pilots: &[Pilot<'_>]) -> Result<Sums<'a>, AllocError> {
        let alloc = task.rt.alloc();
        let mut tallies = Vec::new(alloc);
        for pilot in pilots {
            tallies.push(RobotCounts::new(alloc, pilot.program())?)?;
        }
        Ok(Sums {
            task,
            tallies,
            aims: Aims::new(),
        })
    }

    /// Returns the counts of a robot, if it and a cycle are in the span.
    fn tally(&mut self, cycle: u32, robot: usize) -> Option<&mut RobotCounts> {
        if self.task.request.span.has(cycle, robot) {
            self.tallies.get_mut(robot)
        } else {
            None
        }
    }

    /// Counts what an update takes from a robot, and who takes it.
    fn count_losses(&mut self, cycle: u32, robot: usize, arena: &Arena)
        requires { robot < length arena.now.robots }
    {
        for loss in &losses(arena, robot) {
            if let Some(tally) = self.tally(cycle, robot) {
                tally.lose(loss);
            }
            if let Source::Shot(by, _, _) = loss.source
                && by != robot
                && let Some(tally) = self.tally(cycle, by)
            {
                add(&mut tally.taken, robot, u64::from(loss.percent));
            }
        }
    }

    /// Counts the bursts of an update.
    fn count_bursts(&mut self, cycle: u32, arena: &Arena) {
        for burst in &arena.due() {
            let mut is_hit = false;
            for robot in 0..arena.robot_count() {
                is_hit |= robot != burst.robot() && arena.taken_by(robot, burst) > 0;
            }
            if let Some(tally) = self.tally(cycle, burst.robot()) {
                tally.burst(is_hit);
            }
        }
    }
    /// Ends a match: what follows is counted of the next one.
    fn end_match(&mut self) {
        for robot in 0..self.tallies.len() {
            if let Some(tally) = self.tallies.get_mut(robot) {
                tally.end_match();
            }
        }
    }

    /// Reports whether all was counted: no memory was refused.
    fn is_whole(&self) -> bool {
        self.tallies.iter().all(|tally| tally.clock.is_whole())
    }

    /// Writes the sums of these matches.
    fn write(mut self, played: Played) -> Result<(), Fault> {
        if !self.is_whole() {
            return Err(Fault::Memory);
        }
        if played.are_several() {
            self.end_match();
        }
        let mut text = Draft::new(self.task.rt.alloc());
        add_report(&mut text, self.task, played, self.tallies.as_slice())?;
        write_text(self.task.rt, text.finish()?.as_str())
    }

    /// Writes the sums of the match of this number as an object.
    fn write_object(self, number: u32, cycles: u32) -> Result<(), Fault> {
        if !self.is_whole() {
            return Err(Fault::Memory);
        }
        let mut text = Draft::new(self.task.rt.alloc());
        add_object(
            &mut text,
            self.task,
            number,
            cycles,
            self.tallies.as_slice(),
        )?;
        write_text(self.task.rt, text.finish()?.as_str())
    }
}

impl Watcher for Sums<'_> {
    /// No shot of a match before is in the air.
    fn begins(&mut self, _: &Arena) {
        self.aims = Aims::new();
    }

    fn turn(&mut self, turn: Turn, pilot: &Pilot<'_>) {
        if let Some(tally) = self.tally(turn.cycle, turn.robot) {
            tally.pass(turn.cycle, pilot.machine().address());
        }
    }

    fn asked(&mut self, turn: Turn, pilot: &Pilot<'_>, question: Exchange, arena: &Arena) {
        self.aims.hear(turn, &question, arena);
        if let Some(tally) = self.tally(turn.cycle, turn.robot) {
            tally.ask(turn.cycle, pilot.machine().address(), &question);
        }
    }

    fn restarts(&mut self, turn: Turn, pilot: &Pilot<'_>, cause: Cause) {
        if let Some(tally) = self.tally(turn.cycle, turn.robot) {
            let machine = pilot.machine();
            tally.restart(machine.address(), cause, machine.frames());
        }
    }

    fn updates(&mut self, cycle: u32, arena: &Arena) {
        self.aims.choose(arena);
        self.count_bursts(cycle, arena);
        for robot in 0..arena.robot_count() {
            self.count_losses(cycle, robot, arena);
        }
    }

    fn updated(&mut self, cycle: u32, arena: &Arena) {
        for miss in &self.aims.misses(arena) {
            if let Some(tally) = self.tally(cycle, miss.robot) {
                count_miss(&mut tally.misses, miss);
                tally.aim(miss);
            }
        }
        for robot in 0..arena.robot_count() {
            if let Some(tally) = self.tallies.get_mut(robot) {
                tally.see(cycle, arena.damage(robot), arena.alive(robot));
            }
        }
    }

    fn wants_more(&self, _: u32) -> bool {
        true
    }
}
