//! A watcher that finds constant code while a source is read.

ghost use Rattle.std.specs.Prelude.{◌≡◌};
ghost use Rattle.arith.specs.Op.{value_of};

use crate::folds::{Fold, Folds};
use arith::binop;
use arrayvec::ArrayVec;
use code::Profile;
use grammar::{Action, Op, Watch};

/// The most values that are known at once.
const MOST_KNOWN: usize = 64;

/// A folder: it finds which code is constant, beside a builder that takes each action as it is.
///
/// It passes no value on instead of the actions that compute it: a builder has to represent the file's actions, and a
/// `Maker` with others gives no program.
#[derive(Drop)]
pub struct Folder {
    profile: Profile,
    next: u32,
    known: ArrayVec<Fold, MOST_KNOWN>,
    folds: Folds,
}

impl Folder {
    /// Makes a folder before the first action, for a builder that goes by this profile.
    pub fn new(profile: Profile) -> Folder {
        Folder {
            profile,
            next: 0,
            known: ArrayVec::new(),
            folds: Folds::new(),
        }
    }

    /// Returns what was found.
    pub fn into_folds(self) -> Folds {
        self.folds
    }

    /// Takes a binary operator: two known sides become one value; if only the right one is known, that is a finding.
    fn combine(&mut self, op: Op) {
        let (right, left) = (self.known.pop(), self.known.pop());
        match (left, right) {
            (Some(left), Some(right)) => {
                let fold = worked_out(op, left, right, self.next);
                self.remember(fold);
            }
            (None, Some(right)) => {
                self.folds.add(right);
            }
            _ => {}
        }
    }

    /// Keeps a known value. Without room the oldest becomes a finding.
    fn remember(&mut self, fold: Fold) {
        if self.known.is_full() {
            let oldest = self.known.remove(0);
            self.folds.add(oldest);
        }
        let _ = self.known.try_push(fold);
    }

    /// Turns all known values into findings.
    fn settle(&mut self) {
        for fold in self.known.as_slice() {
            self.folds.add(*fold);
        }
        self.known.clear();
    }
}

impl Watch for Folder {
    /// Takes an action: a constant's value is known, and an operator's if both sides are.
    fn see(&mut self, action: Action) {
        let begin = self.next;
        let instructions = action.instructions(self.profile);
        let end = begin.saturating_add(u32::from(instructions));
        self.next = end;
        match action {
            Action::PushConstant(value) => self.remember(Fold { begin, end, value }),
            Action::ApplyBinop(op) => self.combine(op),
            Action::FetchVariable(_)
            | Action::StoreVariable(_, _)
            | Action::LogicMiddle(_)
            | Action::BeginCall
            | Action::EndCall(_)
            | Action::IfTest
            | Action::ElsePart
            | Action::EndIf
            | Action::BeginWhile
            | Action::WhileTest
            | Action::EndWhile
            | Action::GiveBack
            | Action::Chop
            | Action::BeginFunction(_, _)
            | Action::EndFunction(_) => self.settle(),
        }
    }
}

/// Returns the stretch of an operator, up to an address: it begins with the left side.
fn worked_out(op: Op, left: Fold, right: Fold, end: u32) -> Fold
    ensures value { result.value ≡ value_of op left.value right.value }
    ensures begin { result.begin ≡ left.begin }
    ensures end { result.end ≡ end }
{
    Fold {
        begin: left.begin,
        end,
        value: binop(op, left.value, right.value),
    }
}
