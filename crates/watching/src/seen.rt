//! What was seen of a robot: a film has its first scan of an update alone, and its death once.

ghost use Rattle.std.specs.Prelude.{◌≡◌, ◌&&◌, ◌||◌, false, not, true};

use crate::runs::Run;

/// What was seen of a robot.
#[derive(Clone, Copy, Default, Drop)]
pub struct Seen {
    /// The run that it is on.
    pub run: Run,
    /// Whether it has scanned since the last update.
    pub has_scanned: bool,
    /// Whether it was dead.
    pub is_dead: bool,
    /// Its damage, in percent.
    pub damage: u8,
}

impl Seen {
    /// Sees a scan. Reports whether it is the first one since the last update.
    pub fn scan(&mut self) -> bool
        ensures first { result ≡ not self.old.has_scanned }
        ensures scanned { self.new ≡ record self.old { has_scanned = true } }
    {
        let is_first = !self.has_scanned;
        self.has_scanned = true;
        is_first
    }

    /// Sees the robot's damage after an update, and whether it lives. Reports whether it died in that update.
    pub fn look(&mut self, damage: u8, is_alive: bool) -> bool
        ensures died { result ≡ (not self.old.is_dead && not is_alive) }
        ensures run { self.new.run ≡ self.old.run }
        ensures scans { self.new.has_scanned ≡ false }
        ensures dead { self.new.is_dead ≡ (self.old.is_dead || not is_alive) }
        ensures damage { self.new.damage ≡ damage }
    {
        let died = !self.is_dead && !is_alive;
        self.has_scanned = false;
        self.is_dead |= died;
        self.damage = damage;
        died
    }
}
