//! Stretches of code that always give the same value.

ghost use Rattle.std.specs.Prelude.{◌≤◌};

use arrayvec::ArrayVec;
use code::MOST_INSTRUCTIONS;

/// The most stretches of a program: each has two constants and an operator at least.
const MOST_FOLDS: usize = MOST_INSTRUCTIONS / 3;

/// A stretch of code that pushes the same value each time, and does nothing else.
#[derive(Clone, Copy, Default, PartialEq, Eq)]
pub struct Fold {
    /// The address of its first instruction.
    pub begin: u32,
    /// The address after its last one.
    pub end: u32,
    /// The value.
    pub value: i32,
}

/// The stretches of a program, in the order of their addresses. None shares an instruction with another one.
#[derive(Drop)]
pub struct Folds {
    list: ArrayVec<Fold, MOST_FOLDS>,
}

impl Folds {
    /// Makes a list without stretches.
    pub fn new() -> Folds {
        Folds {
            list: ArrayVec::new(),
        }
    }

    /// Adds a stretch of more than one instruction: one alone can't be shorter.
    pub fn add(&mut self, fold: Fold) {
        if fold.end.saturating_sub(fold.begin) > 1 {
            let _ = self.list.try_push(fold);
        }
    }

    /// Returns the stretch to which the instruction of an address belongs.
    pub fn at(&self, address: u32) -> Option<Fold> {
        let mut folds = self.list.as_slice().iter();
        folds
            .find(|fold| fold.begin <= address && address < fold.end)
            .copied()
    }

    /// Returns the address that an instruction has once each stretch before it is one instruction.
    pub fn moved(&self, address: u32) -> u32
        ensures { result ≤ address }
    {
        let mut dropped = 0u32;
        for fold in self.list.as_slice() {
            if fold.end <= address {
                let more = fold.end.saturating_sub(fold.begin).saturating_sub(1);
                dropped = dropped.saturating_add(more);
            }
        }
        address.saturating_sub(dropped)
    }
}
