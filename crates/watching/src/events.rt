//! Events of a match: the kind of each, and what is said of it.

ghost use Rattle.std.specs.Prelude.{◌≡◌, ◌≤◌, ◌++◌, ◌∷◌, ℕ, Bool, true, List, [], codes, length, map, pos};
ghost use Rattle.arena.specs.Field as field;
ghost use Rattle.arena.specs.Representing.{RepresentsField};
ghost use Rattle.watching.specs.Heard.{Heard, heard_of, stance_numbers, update_heard};
ghost use Rattle.watching.specs.Losses.{loss_numbers, loss_word, number_of};

use crate::runs::Stance;
use crate::update_losses::{Loss, Source, losses};
use arena::{Arena, Burst, MOST_ROBOTS};
use arrayvec::ArrayVec;

/// The most fields of an event.
pub const MOST_FIELDS: usize = 5;

/// A field of an event.
#[derive(Clone, Copy)]
pub enum Field<'a> {
    /// A number.
    Number(i64),
    /// A text.
    Text(&'a str),
}

impl Default for Field<'_> {
    fn default() -> Self {
        Field::Text("")
    }
}

/// What happened: its kind, and up to five fields that say more of it.
#[derive(Drop)]
pub struct Event<'a> {
    /// Its kind.
    pub kind: &'static str,
    /// Its fields, in order.
    pub fields: ArrayVec<Field<'a>, MOST_FIELDS>,
}

impl<'a> Event<'a> {
    /// Makes an event of this kind with these fields, of which five count.
    pub fn new(kind: &'static str, fields: &[Field<'a>]) -> Event<'a>
        ensures kind { result.kind.now ≡ kind.now }
        ensures fields { length fields.now ≤ MOST_FIELDS → result.fields.items ≡ fields.now }
    {
        let mut event = Event {
            kind,
            fields: ArrayVec::new(),
        };
        for field in fields {
            let _ = event.fields.try_push(*field);
        }
        event
    }

    /// Makes an event of this kind with these numbers.
    pub fn of_numbers(kind: &'static str, numbers: &[i32]) -> Event<'a>
        ensures kind { result.kind.now ≡ kind.now }
        ensures fields { length numbers.now ≤ MOST_FIELDS → result.fields.items ≡ map Field.Number numbers.now }
    {
        let mut event = Event::new(kind, &[]);
        for number in numbers {
            let _ = event.fields.try_push(Field::Number(i64::from(*number)));
        }
        event
    }

    /// Makes the event that a robot is at a place: its place, heading, speed and damage.
    pub fn stance(kind: &'static str, stance: &Stance) -> Event<'a>
        ensures kind { result.kind.now ≡ kind.now }
        ensures fields { result.fields.items ≡ map Field.Number (stance_numbers stance.now) }
    {
        let (x, y) = (i32::from(stance.x), i32::from(stance.y));
        let (heading, speed) = (i32::from(stance.heading), i32::from(stance.speed));
        Event::of_numbers(kind, &[x, y, heading, speed, i32::from(stance.damage)])
    }

    /// Makes the event that a missile bursts: the place.
    pub fn burst(burst: &Burst) -> Event<'a>
        ensures kind { result.kind.now ≡ codes "burst" }
        ensures fields { result.fields.items ≡ map Field.Number (pos burst.now.at.x ∷ pos burst.now.at.y ∷ []) }
    {
        Event::of_numbers("burst", &[i32::from(burst.x()), i32::from(burst.y())])
    }

    /// Makes the event that an update takes damage from a robot: how much, which robot caused it, and where that one's
    /// shot bursts.
    pub fn loss(loss: &Loss) -> Event<'a>
        ensures kind { result.kind.now ≡ loss_word loss.now.source }
        ensures fields { result.fields.items ≡ map Field.Number (loss_numbers loss.now) }
    {
        let percent = i32::from(loss.percent);
        match loss.source {
            Source::Wall => Event::of_numbers("wall", &[percent]),
            Source::Collision(other) => Event::of_numbers(
                "collision",
                &[percent, number_of(other)],
            ),
            Source::Shot(by, x, y) => {
                let (by, x, y) = (number_of(by), i32::from(x), i32::from(y));
                Event::of_numbers("hurt", &[percent, by, x, y])
            }
        }
    }
}

/// Takes the events of a match, one by one. `heard` says whether it may have been told these, in this order: each call
/// tells it one more. It holds always for a listener of which nothing is to be proved. `keeps` has numbers of it that no
/// call changes, as where it writes to. Nor does a call change what `shows` says: of which robot in which cycle a film
/// has the way and the scans.
pub trait Listener {
    ghost heard: { Self → List Heard → Type 0 } = { λ _ _. Unit {0} };

    ghost keeps: { Self → List ℕ } = { λ _. [] };

    ghost shows: { Self → ℕ → ℕ → Bool } = { λ _ _ _. true };

    /// Takes an event of a robot in a cycle.
    fn tell(&mut self, cycle: u32, robot: usize, event: &Event<'_>)
        ensures heard { (events : List Heard) → heard self.old events
            → heard self.new (events ++ heard_of cycle robot event.now ∷ []) }
        ensures kept { keeps self.new ≡ keeps self.old }
        ensures shown { shows self.new ≡ shows self.old };

    /// Takes what the update does that follows this cycle: the bursts, and what each robot loses.
    fn tell_update(&mut self, cycle: u32, arena: &Arena)
        ensures heard { (events : List Heard) (f : field.Field) → RepresentsField arena.now f
            → length f.robots ≤ MOST_ROBOTS → heard self.old events → heard self.new (events ++ update_heard cycle f) }
        ensures kept { keeps self.new ≡ keeps self.old }
        ensures shown { shows self.new ≡ shows self.old }
    {
        let due = arena.due();
        let bursts = due.as_slice();
        for burst in bursts {
            self.tell(cycle, burst.robot(), &Event::burst(burst));
        }
        for robot in 0..arena.robot_count() {
            let lost = losses(arena, robot);
            let parts = lost.as_slice();
            for loss in parts {
                self.tell(cycle, robot, &Event::loss(loss));
            }
        }
    }
}

/// Returns a robot's number, which counts from 1 in events.
fn number_of(robot: usize) -> i32
    ensures { result ≡ number_of robot }
{
    robot.min(MOST_ROBOTS) as i32 + 1
}
