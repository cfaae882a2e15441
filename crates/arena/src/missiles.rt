//! The missiles of all robots that are in the air, and the update before which none of them bursts.

ghost use Rattle.std.specs.Prelude.{◌≡◌, ℕ, ◌+◌, ◌-◌, ◌^◌, ◌<◌, ◌≤◌, ◌++◌, ◌∷◌, [], List, All, flat_map, sum, true, false, nat_lt, length, slice_index_or};
ghost use Rattle.std.specs.List.{range_with_len};
ghost use Rattle.arena.specs.Field.{Shot};
ghost use Rattle.arena.specs.Shots.{bursts, in_air};
ghost use Rattle.arena.specs.Arena.{shot_of};
ghost use Rattle.arena.specs.Representing.{HoldsShots};
ghost use Rattle.arena.specs.Due.{HarmLikeShots};
ghost use Rattle.arena.specs.Still.{NoBurstBefore};
ghost use Rattle.arena.specs.Outlook.{own_bursts};

use crate::bursts::Burst;
use crate::missile::Missile;
use crate::rules::{MOST_BURSTS, MOST_MISSILES, MOST_ROBOTS};
use crate::slots::{
    Slots, bursts_of_slots, empty_slots, fire_from_slot, has_free_slot, land_in_slots,
    next_burst_of_slots, no_slot_flies,
};
use arrayvec::ArrayVec;
use std::marker::Model;

/// The missiles of all robots that are in the air. None bursts before the update `next`.
#[derive(Drop)]
pub struct Missiles {
    slots: ArrayVec<Slots, MOST_ROBOTS>,
    next: u32,
}

impl Model for Missiles {
    ghost use Rattle.std.specs.Prelude.{◌≤◌, List, length};
    ghost use Rattle.arena.specs.Arena.{Missile};
    ghost use Rattle.arena.specs.Still.{NoBurstBefore};
    ghost use Rattle.arena.specs.declared.rules.TheConstants.{MOST_ROBOTS};

    ghost Value = { List (List Missile) };

    ghost view = { λ m. m.slots.items };

    ghost invariant = { λ m. (length m.slots.items ≤ MOST_ROBOTS) × NoBurstBefore m.next m.slots.items };
}

impl Missiles {
    /// Makes the missiles of the given number of robots, none of them in the air.
    pub fn none_in_air(robots: usize) -> Missiles
        requires { robots ≤ MOST_ROBOTS }
        ensures count { length result ≡ robots }
        ensures none { HoldsShots 0 result [] }
        ensures two { All (λ s. length s ≤ MOST_MISSILES) result }
    {
        Missiles {
            slots: empty_slots(robots),
            next: u32::MAX,
        }
    }

    /// Reports whether a missile may burst before the last update that a number can tell: a quick look before
    /// `none_flies`.
    pub fn may_burst(&self) -> bool
        ensures { result ≡ false → NoBurstBefore (2 ^ 32 - 1) self.now }
    {
        self.next < u32::MAX
    }

    /// Reports whether no missile of any robot is in the air.
    pub fn none_flies(&self) -> bool
        ensures { result ≡ true → All (λ s. s ≡ []) self.now }
    {
        no_slot_flies(self.slots.as_slice())
    }

    /// Reports whether a robot may fire: it has fewer than two missiles in the air.
    pub fn may_fire(&self, robot: usize) -> bool
        requires { robot < length self.now }
        ensures own { result ≡ nat_lt (length (slice_index_or self.now robot [])) MOST_MISSILES }
        ensures shots { (updates : ℕ) (shots : List Shot) → HoldsShots updates self.now shots
            → result ≡ nat_lt (length (in_air updates robot shots)) MOST_MISSILES }
    {
        has_free_slot(self.slots.as_slice(), robot)
    }

    /// Fires a missile of a robot.
    pub fn fire(&mut self, robot: usize, missile: Missile)
        requires inside { robot < length self.old }
        requires free { nat_lt (length (slice_index_or self.old robot [])) MOST_MISSILES ≡ true }
        ensures shots { (updates : ℕ) (shots : List Shot) → updates < missile.burst → HoldsShots updates self.old shots
            → HoldsShots updates self.new (shots ++ shot_of robot missile ∷ []) }
        ensures two { All (λ s. length s ≤ MOST_MISSILES) self.old → All (λ s. length s ≤ MOST_MISSILES) self.new }
        ensures count { length self.new ≡ length self.old }
    {
        fire_from_slot(self.slots.as_mut_slice(), robot, missile);
        self.next = self.next.min(missile.burst());
    }

    /// Reports whether no missile bursts up to an update: then nothing is hurt anywhere.
    pub fn has_no_burst_by(&self, update: u32) -> bool
        ensures { result ≡ true → (updates : ℕ) (shots : List Shot) (x y : ℕ) → update ≡ updates + 1
            → HoldsShots updates self.now shots → sum (bursts update shots x y) ≡ 0 }
    {
        update < self.next
    }

    /// Returns the bursts of an update, robot by robot.
    pub fn bursts(&self, update: u32) -> ArrayVec<Burst, MOST_BURSTS>
        ensures bursts { (updates : ℕ) (shots : List Shot) → HoldsShots updates self.now shots
            → result.items ≡ flat_map (own_bursts update updates shots) (range_with_len 0 (length self.now)) }
        ensures harm { (updates : ℕ) (shots : List Shot) → update ≡ updates + 1 → HoldsShots updates self.now shots
            → HarmLikeShots update shots result.items }
    {
        bursts_of_slots(self.slots.as_slice(), update)
    }

    /// Frees the missiles that burst in an update or before.
    pub fn land(&mut self, update: u32)
        ensures shots { (updates : ℕ) (shots : List Shot) → update ≡ updates + 1 → HoldsShots updates self.old shots
            → HoldsShots update self.new shots }
        ensures two { All (λ s. length s ≤ MOST_MISSILES) self.old → All (λ s. length s ≤ MOST_MISSILES) self.new }
        ensures count { length self.new ≡ length self.old }
    {
        if update < self.next {
            return;
        }
        self.land_due(update);
    }

    /// Frees the missiles that burst in an update or before, of which there may be some.
    #[inline(never)]
    fn land_due(&mut self, update: u32)
        ensures shots { (updates : ℕ) (shots : List Shot) → update ≡ updates + 1 → HoldsShots updates self.old shots
            → HoldsShots update self.new shots }
        ensures two { All (λ s. length s ≤ MOST_MISSILES) self.old → All (λ s. length s ≤ MOST_MISSILES) self.new }
        ensures count { length self.new ≡ length self.old }
    {
        land_in_slots(self.slots.as_mut_slice(), update);
        self.next = next_burst_of_slots(self.slots.as_slice());
    }
}
