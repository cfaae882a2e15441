//! A stretch: the windows of a match that a film shows.

ghost use Rattle.std.specs.Prelude.{◌≡◌, ◌+◌, ◌*◌, ◌≤◌, ◌<◌, ◌==◌, ◌&&◌, ◌||◌, nat_lt, nat_le};

use watching::UPDATE_CYCLES;

/// Some windows of a match, each the 15 cycles between two updates. Any numbers make a stretch: one that begins after
/// the match's end has nothing of it.
#[derive(Clone, Copy, PartialEq, Eq)]
pub struct Stretch {
    /// How many updates are before it.
    pub from: u32,
    /// How many windows it has.
    pub windows: u32,
}

impl Stretch {
    /// Reports whether the window that begins at this update is one of them.
    pub(crate) fn holds(&self, updates: u32) -> bool
        ensures { result ≡ (nat_le self.now.from updates && nat_lt updates (self.now.from + self.now.windows)) }
    {
        self.from <= updates && updates - self.from < self.windows
    }

    /// Reports whether the stretch begins or ends at this update.
    pub(crate) fn is_bordered(&self, updates: u32) -> bool
        ensures { result ≡ (updates == self.now.from || updates == self.now.from + self.now.windows) }
    {
        updates == self.from || u64::from(updates) == self.end()
    }

    /// Reports whether it ends at this update or before.
    pub(crate) fn is_past(&self, updates: u32) -> bool
        ensures { result ≡ nat_le (self.now.from + self.now.windows) updates }
    {
        self.end() <= u64::from(updates)
    }

    /// Reports whether it lasts at least to the end of this cycle.
    pub(crate) fn reaches(&self, cycle: u32) -> bool
        ensures { result ≡ nat_le cycle ((self.now.from + self.now.windows) * UPDATE_CYCLES) }
    {
        u64::from(cycle) <= self.end() * u64::from(UPDATE_CYCLES)
    }

    /// Returns how many updates are before its end.
    fn end(&self) -> u64
        ensures { result ≡ self.now.from + self.now.windows }
    {
        u64::from(self.from) + u64::from(self.windows)
    }
}
