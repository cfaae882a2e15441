//! What a step of a derivation emits: actions, and the token that they come from.

ghost use Rattle.std.specs.Prelude.{◌≡◌, ◌≤◌, length};
ghost use Rattle.derivations.specs.declared.emissions.TheConstants.{MOST_ACTIONS};
ghost use Rattle.grammar.specs.Actions.{code_length};

use grammar::{Action, Profile};

/// The most actions of a step: those of `v++`.
pub const MOST_ACTIONS: usize = 4;

/// The token that a step's actions come from.
#[derive(Clone, Copy)]
pub enum Origin {
    /// The one at which the production was chosen.
    Chosen,
    /// The one after that.
    AfterChosen,
    /// The one that was passed last.
    Passed,
    /// The next one.
    Next,
}

/// What a step emits. All its actions come from one token. A derivation knows no numbers of names and no constants: in
/// actions that have them, they are 0.
#[derive(Drop)]
pub struct Emission {
    actions: &'static [Action],
    origin: Origin,
    ghost few: { length actions.now ≤ MOST_ACTIONS },
}

impl Emission {
    /// Makes the emission of these actions, which come from this token.
    pub(crate) fn of(actions: &'static [Action], origin: Origin) -> Emission
        requires { length actions.now ≤ MOST_ACTIONS }
        ensures actions { result.actions.now ≡ actions.now }
        ensures origin { result.origin ≡ origin }
    {
        Emission { actions, origin }
    }

    /// Returns the actions, the first to be reported first.
    pub fn actions(&self) -> &[Action]
        ensures value { result.now ≡ self.now.actions.now }
        ensures most { length result.now ≤ MOST_ACTIONS }
    {
        self.actions
    }

    /// Returns how many instructions the actions make in a profile.
    pub fn instructions(&self, profile: Profile) -> usize
        ensures { result ≡ code_length profile self.now.actions.now }
    {
        let actions = self.actions();
        let mut made = 0usize;
        for action in actions {
            made = made.saturating_add(usize::from(action.instructions(profile)));
        }
        made
    }

    /// Returns the token that they come from: an operator's own, a call's name, the word of a test or of a return, a
    /// statement's semicolon, a function's closing brace.
    pub fn origin(&self) -> Origin
        ensures { result ≡ self.now.origin }
    {
        self.origin
    }
}
