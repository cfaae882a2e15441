//! The trait of a builder: a parse reports each action to it, in the order of the tokens.

ghost use Rattle.std.specs.Prelude.{List, OnOk};
ghost use Rattle.grammar.specs.declared.actions.Action.{Action};
ghost use Rattle.grammar.specs.Building.{Appends, Judges, MayFollow};
ghost use Rattle.grammar.specs.Profile.{Profile};

use crate::actions::Action;

/// Why a builder refused an action. What it represents is unknown then: its owner gives it up.
#[derive(Clone, Copy, Debug, PartialEq, Eq)]
pub enum BuildFault {
    /// The code so far and the final NOP exceed the most instructions of a file.
    Full,
    /// Memory was refused.
    Memory,
}

/// A builder: the actions of a file are reported to it.
///
/// A builder represents lists of actions: those reported to it since it was new. Its caller shows that the action
/// may follow one of them. Each call that answers `Ok` adds its action at the end of each.
pub trait Build {
    // the builder goes by the profile and represents the list of actions
    ghost stands: { Self → Profile → List Action → Type 0 };
    // that memory was refused to it; a builder that asks for none never shows that
    ghost denied: { Type 0 };

    /// Takes the next action.
    ///
    /// Answers `Full` exactly if the action ends a function, and the code so far and the final NOP exceed the most
    /// instructions of a file.
    fn act(&mut self, action: Action) -> Result<(), BuildFault>
        requires follows { MayFollow (stands self.old) action }
        ensures ok { OnOk result (Appends (stands self.old) (stands self.new) action) }
        ensures judged { Judges result denied (stands self.old) action };
}
