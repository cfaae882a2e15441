//! A watcher that counts how deep the statements of each function are nested.

use lang::{Action, Watch};

/// The depths of functions: each `if` and each `while` is a level.
#[derive(Drop)]
pub struct Depths {
    function: u8,
    depth: u32,
    deepest: [u32; 256],
}

impl Depths {
    /// Makes the depths before the first action.
    pub fn new() -> Depths {
        Depths {
            function: 0,
            depth: 0,
            deepest: [0; 256],
        }
    }

    /// Returns the greatest depth in the function of this number.
    pub fn deepest(&self, function: u8) -> u32 {
        self.deepest[usize::from(function)]
    }

    /// Enters a function, by its number.
    fn enter(&mut self, function: u8) {
        self.function = function;
        self.depth = 0;
    }

    /// Opens a level.
    fn open(&mut self) {
        self.depth = self.depth.saturating_add(1);
        let function = usize::from(self.function);
        self.deepest[function] = self.deepest[function].max(self.depth);
    }

    /// Closes a level.
    fn close(&mut self) {
        self.depth = self.depth.saturating_sub(1);
    }
}

impl Watch for Depths {
    /// Follows an action: a condition or a loop opens a level, and its end closes it.
    fn see(&mut self, action: Action) {
        match action {
            Action::IfTest | Action::BeginWhile => self.open(),
            Action::EndIf | Action::EndWhile => self.close(),
            Action::BeginFunction(number, _) => self.enter(number),
            // (no others open or close a level)
            _ => {}
        }
    }
}
