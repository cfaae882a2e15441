//! Streaks: a loop that waits for something calls the same function from the same place, again and again.

ghost use Rattle.std.specs.Prelude.{◌≡◌, ◌+◌, ◌-◌, ◌^◌, ◌<◌, true, false, nat_eq};
ghost use Rattle.watching.specs.Streaks.{streak_of, with_call};

use grammar::Intrinsic;

/// A call of an intrinsic function, and its reply.
#[derive(Clone, Copy, Drop)]
pub struct Call {
    /// The cycle of the call.
    pub cycle: u32,
    /// The address of the call.
    pub address: usize,
    /// The function.
    pub intrinsic: Intrinsic,
    /// The reply.
    pub reply: i32,
}

/// Calls from one address in a row, with no other call in between.
#[derive(Clone, Copy, Drop)]
pub struct Streak {
    /// The first call.
    pub first: Call,
    /// The cycle of the last call.
    pub last: u32,
    /// How many calls there are.
    pub count: u32,
    /// The least reply.
    pub least: i32,
    /// The greatest reply.
    pub most: i32,
}

impl Streak {
    /// Begins a streak with a call.
    pub fn new(call: Call) -> Streak
        ensures { result ≡ streak_of call }
    {
        Streak {
            first: call,
            last: call.cycle,
            count: 1,
            least: call.reply,
            most: call.reply,
        }
    }

    /// Takes the next call, if it is from the same address. Reports whether it is.
    pub fn take(&mut self, call: Call) -> bool
        ensures taken { result ≡ nat_eq call.address self.old.first.address }
        ensures goes_on { result ≡ true → self.old.count < 2 ^ 32 - 1 → self.new ≡ with_call self.old call }
        ensures other { result ≡ false → self.new ≡ self.old }
    {
        if call.address != self.first.address {
            return false;
        }
        self.last = call.cycle;
        self.count = self.count.saturating_add(1);
        self.least = self.least.min(call.reply);
        self.most = self.most.max(call.reply);
        true
    }

    /// Returns how many cycles are from the first call to the last.
    pub fn cycles(&self) -> u32
        ensures { result ≡ self.now.last - self.now.first.cycle }
    {
        self.last.saturating_sub(self.first.cycle)
    }
}
