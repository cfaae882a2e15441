//! Where a robot's time goes: each cycle counts for the question that it leads to.

ghost use Rattle.std.specs.Prelude.{◌≡◌, ◌+◌, ◌-◌, ◌*◌, ◌/◌, ◌<◌, ◌^◌, max};
ghost use Rattle.watching.specs.Purposes.{purpose_of, total_of, share_of};

use grammar::Intrinsic;

/// What a robot asks the field for.
#[derive(Clone, Copy)]
pub enum Purpose {
    /// To move: `drive`, `speed`, `loc_x`, `loc_y`.
    Moving,
    /// To find others: `scan`.
    Scanning,
    /// To shoot: `cannon`.
    Shooting,
    /// To compute, and all the rest.
    Sums,
}

/// Returns what a function is asked for.
pub fn purpose_of(intrinsic: Intrinsic) -> Purpose
    ensures { result ≡ purpose_of intrinsic }
{
    match intrinsic {
        Intrinsic::Scan => Purpose::Scanning,
        Intrinsic::Cannon => Purpose::Shooting,
        Intrinsic::Drive | Intrinsic::Speed | Intrinsic::LocX | Intrinsic::LocY => Purpose::Moving,
        Intrinsic::Damage
        | Intrinsic::Rand
        | Intrinsic::Sqrt
        | Intrinsic::Sin
        | Intrinsic::Cos
        | Intrinsic::Tan
        | Intrinsic::Atan => Purpose::Sums,
    }
}

/// A robot's cycles by their purpose, and those since its last question.
#[derive(Clone, Copy, Default, Drop)]
pub struct Shares {
    /// The cycles for moving.
    pub moving: u64,
    /// The cycles for scanning.
    pub scanning: u64,
    /// The cycles for shooting.
    pub shooting: u64,
    /// The cycles for sums, and for all the rest.
    pub sums: u64,
    /// The cycles since the last question.
    pub open_cycles: u64,
}

impl Shares {
    /// Counts a cycle, which leads to a question that is not known yet.
    pub fn count(&mut self)
        ensures { self.old.open_cycles < 2 ^ 64 - 1
            → self.new ≡ record self.old { open_cycles = self.old.open_cycles + 1 } }
    {
        self.open_cycles = self.open_cycles.saturating_add(1);
    }

    /// Counts the cycles since the last question for a purpose: they led to a question of this kind.
    pub fn settle(&mut self, purpose: Purpose)
        ensures total { total_of self.old < 2 ^ 64 → total_of self.new ≡ total_of self.old }
        ensures share { total_of self.old < 2 ^ 64
            → share_of self.new purpose ≡ share_of self.old purpose + self.old.open_cycles }
        ensures none { self.new.open_cycles ≡ 0 }
    {
        let cycles = self.open_cycles;
        self.open_cycles = 0;
        match purpose {
            Purpose::Moving => self.moving = self.moving.saturating_add(cycles),
            Purpose::Scanning => self.scanning = self.scanning.saturating_add(cycles),
            Purpose::Shooting => self.shooting = self.shooting.saturating_add(cycles),
            Purpose::Sums => self.sums = self.sums.saturating_add(cycles),
        }
    }
}

/// Returns a part in percent of the whole, rounded down: 0 of nothing.
pub fn percent(part: u64, whole: u64) -> u64
    ensures { part < 2 ^ 57 → result ≡ 100 * part / max whole 1 }
{
    part.saturating_mul(100) / whole.max(1)
}
