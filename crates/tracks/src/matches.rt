//! Plays a match and records what the picture shows: each robot's path, damage and death, and the last shots.

ghost use Rattle.std.specs.Prelude.{◌≡◌, ◌/◌, ◌≤◌, ◌<◌, length, nat_lt, Some, if◌then◌else◌};
ghost use Rattle.std.specs.Option.{option_or};

use crate::requests::View;
use arena::{Arena, DEADLY, MOST_ROBOTS};
use arrayvec::ArrayVec;
use code::{Cause, Intrinsic};
use settings::Settings;
use watching::{Exchange, Path, Pilot, Place, Shot, Shots, Turn, UPDATE_CYCLES, Watcher, play};

/// The most times that a robot's damage grows: each time by a percent at least.
const MOST_GROWTHS: usize = 100;

/// A rise of a robot's damage.
#[derive(Clone, Copy, Default, Drop)]
pub struct Growth {
    /// The update in which it grows.
    pub update: u32,
    /// The damage from then on, in percent.
    pub damage: u8,
}

/// What is recorded of a robot.
#[derive(Default, Drop)]
pub struct Track {
    /// The update after which it was at the first place of its path.
    pub first: u32,
    /// Where it was while it lived, in the cycles that are drawn: at the start, and after each update.
    pub path: Path,
    /// Where it is at the end of the cycles that are drawn.
    pub end: Place,
    /// The update in which it died, if it did.
    pub death: Option<u32>,
    /// Its damage at the end of the match, in percent.
    pub damage: u8,
    /// How its damage grew.
    pub growths: ArrayVec<Growth, MOST_GROWTHS>,
}

impl Track {
    /// Reports whether the robot is alive at the end of the match.
    pub fn is_alive(&self) -> bool
        ensures { result ≡ nat_lt self.now.damage DEADLY }
    {
        self.damage < DEADLY
    }

    /// Reports whether the robot is dead after the update of this number.
    pub fn is_dead_after(&self, update: u32) -> bool {
        matches!(self.death, Some(death) if death <= update)
    }

    /// Records the robot's damage after the update of this number. Its death is in the first update after which it
    /// isn't alive.
    fn suffer(&mut self, damage: u8, update: u32)
        ensures damage { self.new.damage ≡ damage }
        ensures death { self.new.death ≡ (if nat_lt damage DEADLY then self.old.death
            else option_or self.old.death (Some update)) }
    {
        if self.damage < damage {
            let _ = self.growths.try_push(Growth { update, damage });
        }
        self.damage = damage;
        if !self.is_alive() && self.death.is_none() {
            self.death = Some(update);
        }
    }

    /// Adds a place to the path, after the update of this number, if the robot is alive.
    fn pass(&mut self, place: Place, update: u32) {
        if !self.is_alive() {
            return;
        }
        if self.path.places().is_empty() {
            self.first = update;
        }
        self.path.add(place);
    }
}

/// What is recorded of a match.
#[derive(Drop)]
pub struct Recording {
    /// What of it is drawn.
    view: View,
    /// How many cycles it had.
    pub cycles: u32,
    /// The robots, in order.
    pub tracks: ArrayVec<Track, MOST_ROBOTS>,
    /// The last shots.
    pub shots: Shots,
}

impl Recording {
    /// Returns how many updates the match had.
    pub fn updates(&self) -> u32
        ensures { result ≡ self.now.cycles / UPDATE_CYCLES }
    {
        self.cycles / UPDATE_CYCLES
    }

    /// Records what each robot suffered up to the update of this number, and where it is, if that is drawn. The shots
    /// whose bursts in it hurt a robot are marked: one whose damage grew, at the place where it is after it.
    fn watch(&mut self, arena: &Arena, update: u32) {
        let cycle = update.saturating_mul(UPDATE_CYCLES);
        for robot in 0..arena.robot_count() {
            let (place, damage) = (Place::of(arena, robot), arena.damage(robot));
            let mut is_hurt = false;
            if let Some(track) = self.tracks.as_mut_slice().get_mut(robot) {
                is_hurt = track.damage < damage;
                track.suffer(damage, update);
                if cycle <= self.view.span.to {
                    track.end = place;
                }
                if self.view.span.has_cycle(cycle) {
                    track.pass(place, update);
                }
            }
            if is_hurt {
                self.shots.mark(update, place);
            }
        }
    }
}

/// Plays the match that is asked for, and records what of it is drawn.
pub fn record(pilots: &mut [Pilot<'_>], wish: &Settings<'_>, view: View) -> Recording
    requires some { 2 ≤ length pilots.old }
    requires most { length pilots.old ≤ MOST_ROBOTS }
    ensures { result.cycles ≤ wish.now.limit }
{
    let mut recording = Recording {
        view,
        cycles: 0,
        tracks: ArrayVec::new(),
        shots: Shots::new(),
    };
    let (seed, number, limit) = (wish.seed(), wish.first(), wish.limit());
    let ending = play(pilots, &mut recording, seed, number, limit);
    recording.cycles = ending.cycles;
    recording
}

impl Watcher for Recording {
    fn begins(&mut self, arena: &Arena) {
        for _ in 0..arena.robot_count() {
            let _ = self.tracks.try_push(Track::default());
        }
        self.watch(arena, 0);
    }

    fn turn(&mut self, _: Turn, _: &Pilot<'_>) {}

    /// Keeps a shot that is drawn and was fired.
    fn asked(&mut self, turn: Turn, _: &Pilot<'_>, question: Exchange, arena: &Arena) {
        let is_shot = question.intrinsic == Intrinsic::Cannon && question.reply == 1;
        let is_drawn = self.view.has_shots && self.view.span.has(turn.cycle, turn.robot);
        if is_shot && is_drawn {
            let updates = turn.cycle.saturating_sub(1) / UPDATE_CYCLES;
            let from = Place::of(arena, turn.robot);
            self.shots
                .add(Shot::new(turn.robot, updates, from, question.arguments));
        }
    }

    fn restarts(&mut self, _: Turn, _: &Pilot<'_>, _: Cause) {}

    fn updates(&mut self, _: u32, _: &Arena) {}

    fn updated(&mut self, cycle: u32, arena: &Arena) {
        self.watch(arena, cycle / UPDATE_CYCLES);
    }

    fn wants_more(&self, _: u32) -> bool {
        true
    }
}
