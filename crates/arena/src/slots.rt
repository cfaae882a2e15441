//! The missiles of a robot that are in the air.

ghost use Rattle.std.specs.Prelude.{◌≡◌, ℕ, ◌+◌, ◌<◌, ◌≤◌, ◌++◌, ◌∷◌, [], ◌==◌, List, All, filter, map, flat_map, true, false, nat_lt, length, slice_index_or};
ghost use Rattle.std.specs.List.{range_with_len};
ghost use Rattle.arena.specs.Field.{Shot};
ghost use Rattle.arena.specs.Shots.{in_air};
ghost use Rattle.arena.specs.Arena.{shot_of};
ghost use Rattle.arena.specs.Still.{NoBurstBefore};
ghost use Rattle.arena.specs.Due.{HarmLikeShots};
ghost use Rattle.arena.specs.Outlook.{burst_by, own_bursts};
ghost use Rattle.arena.specs.Representing.{HoldsShots};

use crate::bursts::Burst;
use crate::missile::Missile;
use crate::rules::{MOST_BURSTS, MOST_MISSILES, MOST_ROBOTS};
use arrayvec::ArrayVec;
use std::marker::Model;

/// The missiles of one robot that are in the air.
#[derive(Drop)]
pub struct Slots {
    missiles: ArrayVec<Missile, MOST_MISSILES>,
}

impl Model for Slots {
    ghost use Rattle.std.specs.Prelude.{◌≤◌, List, length};
    ghost use Rattle.arena.specs.Arena.{Missile};
    ghost use Rattle.arena.specs.declared.rules.TheConstants.{MOST_MISSILES};

    ghost Value = { List Missile };

    ghost view = { λ s. s.missiles.items };

    ghost invariant = { λ s. length s.missiles.items ≤ MOST_MISSILES };
}

impl Default for Slots {
    fn default() -> Slots
        ensures { result ≡ [] }
    {
        Slots {
            missiles: ArrayVec::new(),
        }
    }
}

impl Slots {
    /// Reports whether one more missile may fly.
    fn has_room(&self) -> bool
        ensures { result ≡ nat_lt (length self.now) MOST_MISSILES }
    {
        self.missiles.len() < MOST_MISSILES
    }

    /// Reports whether no missile is in the air.
    fn is_empty(&self) -> bool
        ensures { result ≡ true → self.now ≡ [] }
    {
        self.missiles.is_empty()
    }

    /// Adds a missile.
    fn add_missile(&mut self, missile: Missile)
        requires { length self.old < MOST_MISSILES }
        ensures { self.new ≡ self.old ++ missile ∷ [] }
    {
        self.missiles.push(missile);
    }

    /// Adds the bursts of an update, of missiles that this robot fired.
    #[tactic(auto, using(crate::proofs::DueBursts::missile_more), unfolding(crate::specs::Outlook::burst_by, crate::specs::Outlook::burst_of, crate::specs::Arena::shot_of))]
    fn add_bursts(&self, robot: usize, update: u32, bursts: &mut ArrayVec<Burst, MOST_BURSTS>)
        requires robot { robot < MOST_ROBOTS }
        requires room { length bursts.old.items + MOST_MISSILES ≤ MOST_BURSTS }
        ensures bursts { bursts.new.items
            ≡ bursts.old.items ++ map (burst_by robot) (filter (λ m. m.burst == update) self.now) }
        ensures most { length bursts.new.items ≤ length bursts.old.items + MOST_MISSILES }
    {
        for missile in self.missiles.as_slice() {
            if missile.burst == update {
                bursts.push(Burst::new(robot, missile.at));
            }
        }
    }

    /// Returns an update before which none of the missiles bursts: the next one with a burst.
    fn next_burst(&self) -> u32
        ensures { All (λ m. result ≤ m.burst) self.now }
    {
        let mut next = u32::MAX;
        for missile in self.missiles.as_slice() {
            next = next.min(missile.burst);
        }
        next
    }

    /// Reports whether all missiles are still in the air after this update.
    fn all_fly(&self, update: u32) -> bool
        ensures { result ≡ true → filter (λ m. nat_lt update m.burst) self.now ≡ self.now }
    {
        for missile in self.missiles.as_slice() {
            if !missile.flies(update) {
                return false;
            }
        }
        true
    }

    /// Keeps the missiles that are still in the air after this update.
    fn keep_flying(&mut self, update: u32)
        ensures { self.new ≡ filter (λ m. nat_lt update m.burst) self.old }
    {
        if self.all_fly(update) {
            return;
        }
        let mut flying = ArrayVec::new();
        for missile in self.missiles.as_slice() {
            if missile.flies(update) {
                flying.push(*missile);
            }
        }
        self.missiles = flying;
    }
}

/// Makes the missiles of the given number of robots, none of them in the air.
pub fn empty_slots(n: usize) -> ArrayVec<Slots, MOST_ROBOTS>
    requires { n ≤ MOST_ROBOTS }
    ensures count { length result.items ≡ n }
    ensures none { HoldsShots 0 result.items [] }
    ensures next { (update : ℕ) → NoBurstBefore update result.items }
    ensures two { All (λ s. length s ≤ MOST_MISSILES) result.items }
{
    let mut slots = ArrayVec::new();
    for _robot in 0..n {
        slots.push(Slots::default());
    }
    slots
}

/// Reports whether no missile of any robot is in the air.
pub fn no_slot_flies(slots: &[Slots]) -> bool
    ensures { result ≡ true → All (λ s. s ≡ []) slots.now }
{
    for own in slots {
        if !own.is_empty() {
            return false;
        }
    }
    true
}

/// Reports whether a robot may fire: it has fewer than two missiles in the air.
pub fn has_free_slot(slots: &[Slots], robot: usize) -> bool
    requires { robot < length slots.now }
    ensures own { result ≡ nat_lt (length (slice_index_or slots.now robot [])) MOST_MISSILES }
    ensures shots { (updates : ℕ) (shots : List Shot) → HoldsShots updates slots.now shots
        → result ≡ nat_lt (length (in_air updates robot shots)) MOST_MISSILES }
{
    slots[robot].has_room()
}

/// Fires a missile of a robot.
pub fn fire_from_slot(slots: &mut [Slots], robot: usize, missile: Missile)
    requires inside { robot < length slots.old }
    requires free { nat_lt (length (slice_index_or slots.old robot [])) MOST_MISSILES ≡ true }
    ensures shots { (updates : ℕ) (shots : List Shot) → updates < missile.burst → HoldsShots updates slots.old shots
        → HoldsShots updates slots.new (shots ++ shot_of robot missile ∷ []) }
    ensures two { All (λ s. length s ≤ MOST_MISSILES) slots.old → All (λ s. length s ≤ MOST_MISSILES) slots.new }
    ensures next { (update : ℕ) → update ≤ missile.burst → NoBurstBefore update slots.old → NoBurstBefore update slots.new }
{
    slots[robot].add_missile(missile);
}

/// Returns an update before which no missile bursts: the next one with a burst.
pub fn next_burst_of_slots(slots: &[Slots]) -> u32
    ensures { NoBurstBefore result slots.now }
{
    let mut next = u32::MAX;
    for own in slots {
        next = next.min(own.next_burst());
    }
    next
}

/// Returns the bursts of an update, robot by robot.
pub fn bursts_of_slots(slots: &[Slots], update: u32) -> ArrayVec<Burst, MOST_BURSTS>
    requires { length slots.now ≤ MOST_ROBOTS }
    ensures bursts { (updates : ℕ) (shots : List Shot) → HoldsShots updates slots.now shots
        → result.items ≡ flat_map (own_bursts update updates shots) (range_with_len 0 (length slots.now)) }
    ensures harm { (updates : ℕ) (shots : List Shot) → update ≡ updates + 1 → HoldsShots updates slots.now shots
        → HarmLikeShots update shots result.items }
{
    let mut bursts = ArrayVec::new();
    for (robot, own) in slots.iter().enumerate() {
        own.add_bursts(robot, update, &mut bursts);
    }
    bursts
}

/// Frees the missiles that burst in an update or before.
pub fn land_in_slots(slots: &mut [Slots], update: u32)
    ensures shots { (updates : ℕ) (shots : List Shot) → update ≡ updates + 1 → HoldsShots updates slots.old shots
        → HoldsShots update slots.new shots }
    ensures two { All (λ s. length s ≤ MOST_MISSILES) slots.old → All (λ s. length s ≤ MOST_MISSILES) slots.new }
{
    for own in slots {
        own.keep_flying(update);
    }
}
