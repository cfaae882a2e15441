//! What is counted of a robot: the sums are made of that. Each cycle, call, restart, loss and burst is counted while
//! the match is played.

use crate::aims::Miss;
use crate::clocks::Clock;
use crate::misses::{MissCounts, Misses};
use crate::restarts::{Crowd, crowd_of};
use arena::MOST_ROBOTS;
use code::{Cause, Frame, Intrinsic, Program};
use std::alloc::{AllocError, Global};
use std::mem;
use watching::{
    Call, DIRECTIONS, Exchange, Loss, Shares, Source, Streak, direction_of, largest, purpose_of,
};

/// How many intrinsic functions there are.
const INTRINSICS: usize = Intrinsic::ALL.len();

/// What is counted of an address.
#[derive(Clone, Copy, Default, Drop)]
pub struct AddressCounts {
    /// The cycles in which its instruction was run.
    pub cycles: u64,
    /// How often its instruction led to a restart.
    pub restarts: u64,
    /// Why the last restart came.
    pub cause: Option<Cause>,
    /// The address from which most calls were open at the last restart.
    pub crowd: Option<Crowd>,
}

/// The calls of an intrinsic function.
#[derive(Clone, Copy, Default, Drop)]
pub struct Calls {
    /// How many there were.
    pub all: u64,
    /// How many of them had the reply 0.
    pub zero: u64,
    /// The least and the greatest reply, of scans that saw a robot and of all other calls.
    pub replies: Option<[i32; 2]>,
}

impl Calls {
    /// Counts a call.
    fn count(&mut self, question: &Exchange) {
        let reply = question.reply;
        self.all = self.all.saturating_add(1);
        if reply == 0 {
            self.zero = self.zero.saturating_add(1);
        }
        if reply != 0 || question.intrinsic != Intrinsic::Scan {
            let [least, most] = self.replies.unwrap_or([reply, reply]);
            self.replies = Some([least.min(reply), most.max(reply)]);
        }
    }
}

/// How many ranges are told apart: each has a hundred metres, the last one all that are longer.
pub const RANGES: usize = 8;

/// How many metres of range are one.
const RANGE_METRES: u16 = 100;

/// What is counted of a robot.
#[derive(Drop)]
pub struct RobotCounts {
    /// Its addresses.
    pub spots: Vec<AddressCounts>,
    /// What its calls and the turns of its loops took.
    pub clock: Clock,
    /// What its cycles were for.
    pub shares: Shares,
    /// Its calls, in the order of the intrinsic functions.
    pub calls: [Calls; INTRINSICS],
    /// How often it saw a robot, by direction.
    pub saw: [u64; DIRECTIONS],
    /// How often it shot, by direction.
    pub shot: [u64; DIRECTIONS],
    /// How often it asked to drive, by direction.
    pub drove: [u64; DIRECTIONS],
    /// Its last calls, if they are from one address.
    streak: Option<Streak>,
    /// The streak that took most cycles.
    pub longest: Option<Streak>,
    /// How many of its shots burst.
    pub bursts: u64,
    /// How many of these hurt another robot.
    pub hits: u64,
    /// By how much these missed whom they were aimed at.
    pub misses: Misses,
    /// How many of these bursts were aimed, by the range that was asked for.
    pub aimed: [u64; RANGES],
    /// How many of them took something from whom they were aimed at.
    pub reached: [u64; RANGES],
    /// What walls took from it, in percent.
    pub walls: u64,
    /// What collisions took from it, in percent.
    pub collisions: u64,
    /// What the shots of each robot took from it, its own among them, in percent.
    pub shots: [u64; MOST_ROBOTS],
    /// What its shots took from each other robot, in percent.
    pub taken: [u64; MOST_ROBOTS],
    /// Its damage, in percent.
    pub damage: u8,
    /// The cycle after which it was dead.
    pub death: Option<u32>,
    /// How many matches before it was alive at the end of.
    pub survived: u64,
    /// Its damage at the ends of the matches before in all, in percent.
    pub damages: u64,
}

impl RobotCounts {
    /// Makes the counts of a robot that runs a program: all are 0.
    pub fn new(alloc: Global, program: &Program) -> Result<RobotCounts, AllocError> {
        let addresses = program.instructions().len();
        Ok(RobotCounts {
            spots: vec![in alloc; AddressCounts::default(); addresses]?,
            clock: Clock::new(alloc, program)?,
            shares: Shares::default(),
            calls: [Calls::default(); INTRINSICS],
            saw: [0; DIRECTIONS],
            shot: [0; DIRECTIONS],
            drove: [0; DIRECTIONS],
            streak: None,
            longest: None,
            bursts: 0,
            hits: 0,
            misses: [MissCounts::default(); 4],
            aimed: [0; RANGES],
            reached: [0; RANGES],
            walls: 0,
            collisions: 0,
            shots: [0; MOST_ROBOTS],
            taken: [0; MOST_ROBOTS],
            damage: 0,
            death: None,
            survived: 0,
            damages: 0,
        })
    }

    /// Ends a match: what follows is counted of the next one.
    pub fn end_match(&mut self) {
        self.survived = self
            .survived
            .saturating_add(u64::from(self.death.is_none()));
        self.damages = self.damages.saturating_add(u64::from(self.damage));
        self.damage = 0;
        self.death = None;
        self.streak = None;
        self.clock.restart();
    }

    /// Counts an aimed shot by its range.
    pub fn aim(&mut self, miss: &Miss) {
        let range = usize::from(miss.range / RANGE_METRES).min(RANGES - 1);
        add(&mut self.aimed, range, 1);
        add(&mut self.reached, range, u64::from(miss.percent > 0));
    }

    /// Counts a cycle at an address.
    pub fn pass(&mut self, cycle: u32, address: usize) {
        self.shares.count();
        self.clock.pass(cycle, address);
        if let Some(spot) = self.spots.get_mut(address) {
            spot.cycles = spot.cycles.saturating_add(1);
        }
    }

    /// Counts a call from an address.
    pub fn ask(&mut self, cycle: u32, address: usize, question: &Exchange) {
        self.shares.settle(purpose_of(question.intrinsic));
        if let Some(calls) = self.calls.get_mut(question.intrinsic as usize) {
            calls.count(question);
        }
        self.count_direction(question);
        self.follow(Call {
            cycle,
            address,
            intrinsic: question.intrinsic,
            reply: question.reply,
        });
    }

    /// Counts the direction of a call, its first argument, if the robot sees another one, shoots, or asks to drive there.
    fn count_direction(&mut self, question: &Exchange) {
        let direction = direction_of(question.arguments[0]);
        match question.intrinsic {
            Intrinsic::Scan if question.reply > 0 => add(&mut self.saw, direction, 1),
            Intrinsic::Cannon if question.reply > 0 => add(&mut self.shot, direction, 1),
            Intrinsic::Drive if question.arguments[1] > 0 => add(&mut self.drove, direction, 1),
            _ => {}
        }
    }

    /// Follows the streak of calls, and keeps the one that took most cycles.
    fn follow(&mut self, call: Call) {
        let mut streak = Streak::new(call);
        if let Some(mut last) = self.streak
            && last.take(call)
        {
            streak = last;
        }
        self.streak = Some(streak);
        let longest = self.longest.unwrap_or(streak);
        let is_longer = longest.cycles() < streak.cycles();
        self.longest = Some(if is_longer { streak } else { longest });
    }

    /// Counts a restart at an address, with these frames open.
    pub fn restart(&mut self, address: usize, cause: Cause, frames: &[Frame]) {
        self.streak = None;
        self.clock.restart();
        if let Some(spot) = self.spots.get_mut(address) {
            spot.restarts = spot.restarts.saturating_add(1);
            spot.cause = Some(cause);
            spot.crowd = crowd_of(frames);
        }
    }

    /// Counts what is taken from the robot.
    pub fn lose(&mut self, loss: &Loss) {
        let percent = u64::from(loss.percent);
        match loss.source {
            Source::Wall => self.walls = self.walls.saturating_add(percent),
            Source::Collision(_) => self.collisions = self.collisions.saturating_add(percent),
            Source::Shot(by, _, _) => add(&mut self.shots, by, percent),
        }
    }

    /// Counts a burst of the robot's shots.
    pub fn burst(&mut self, is_hit: bool) {
        self.bursts = self.bursts.saturating_add(1);
        self.hits = self.hits.saturating_add(u64::from(is_hit));
    }

    /// Sees the robot's damage after a cycle.
    pub fn see(&mut self, cycle: u32, damage: u8, is_alive: bool) {
        self.damage = damage;
        if !is_alive && self.death.is_none() {
            self.death = Some(cycle);
        }
    }

    /// Returns its shots: how many were fired, how many refused. None if it never asked to shoot.
    pub fn fired(&self) -> Option<[u64; 2]> {
        let calls = self.calls.get(Intrinsic::Cannon as usize)?;
        (calls.all > 0).then_some([calls.all.saturating_sub(calls.zero), calls.zero])
    }

    /// Returns how often it restarted.
    pub fn restarts(&self) -> u64 {
        let mut all: u64 = 0;
        for spot in self.spots.as_slice() {
            all = all.saturating_add(spot.restarts);
        }
        all
    }

    /// Returns how many cycles the robot ran.
    pub fn cycles(&self) -> u64 {
        let mut all: u64 = 0;
        for spot in self.spots.as_slice() {
            all = all.saturating_add(spot.cycles);
        }
        all
    }
}

/// Adds to the count of this number, if there is one.
pub fn add(counts: &mut [u64], n: usize, by: u64) {
    if let Some(count) = counts.get_mut(n) {
        *count = count.saturating_add(by);
    }
}

/// Returns the largest of some counts, the largest first, each with its number: this many, or all that aren't 0.
pub fn largest_first(mut counts: Vec<u64>, most: usize) -> Result<Vec<(usize, u64)>, AllocError> {
    let mut found = Vec::new(*counts.allocator());
    for _ in 0..most {
        if let Some(number) = largest(counts.as_slice())
            && let Some(count) = counts.get_mut(number)
        {
            found.push((number, mem::take(count)))?;
        }
    }
    Ok(found)
}
