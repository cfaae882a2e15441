//! The actions that a parse reports to a builder, in the order of the tokens.

ghost use Rattle.std.specs.Prelude.{◌≡◌, ◌≤◌};
ghost use Rattle.grammar.specs.Actions.{instructions};

use crate::operators::StoreOp;
use crate::profiles::Profile;
use crate::resolved_names::{Callee, Var};
use arith::Op;

/// An action: one part of the building of a program.
#[derive(Clone, Copy, Default, PartialEq, Eq)]
pub enum Action {
    /// Takes a constant as the next value.
    PushConstant(i32),
    /// Takes the value of a variable as the next value.
    FetchVariable(Var),
    /// Sets a variable to the last value, or to the operator's result of its own value and the last one. The new value
    /// stays.
    StoreVariable(Var, StoreOp),
    /// Replaces the last two values by the operator's value.
    ApplyBinop(Op),
    /// Ends the left side of `&&` or `||`, whose right side follows.
    LogicMiddle(Op),
    /// Begins a call, whose arguments follow.
    BeginCall,
    /// Ends the arguments of a call, which become the value of what it calls.
    EndCall(Callee),
    /// Ends the condition of an `if`, whose first branch follows.
    IfTest,
    /// Ends the first branch, and the second follows.
    ElsePart,
    /// Ends an `if`.
    #[default]
    EndIf,
    /// Begins a `while`, whose condition follows.
    BeginWhile,
    /// Ends the condition of a `while`, whose body follows.
    WhileTest,
    /// Ends a `while`.
    EndWhile,
    /// Lets the function return the last value.
    GiveBack,
    /// Drops the last value: that of a statement, or the new one of `v++` and `v--`.
    Chop,
    /// Begins the function of this number, with this many parameters.
    BeginFunction(u8, u8),
    /// Ends the function, with this many variables, parameters among them.
    EndFunction(u8),
}

impl Action {
    /// Returns how many instructions it makes in a profile: at most 4.
    pub fn instructions(self, profile: Profile) -> u16
        ensures value { result ≡ instructions profile self }
        ensures most { result ≤ 4 }
    {
        let short = profile.short_circuit();
        match self {
            Action::LogicMiddle(Op::And) if short => 1,
            Action::LogicMiddle(Op::Or) if short => 4,
            Action::LogicMiddle(_) => 0,
            Action::ApplyBinop(Op::And) if short => 4,
            Action::ElsePart | Action::EndWhile => 2,
            Action::EndIf | Action::BeginWhile => 0,
            Action::BeginFunction(_, _) | Action::EndFunction(_) => 0,
            Action::PushConstant(_)
            | Action::FetchVariable(_)
            | Action::StoreVariable(_, _)
            | Action::ApplyBinop(_)
            | Action::BeginCall
            | Action::EndCall(_)
            | Action::IfTest
            | Action::WhileTest
            | Action::GiveBack
            | Action::Chop => 1,
        }
    }
}
