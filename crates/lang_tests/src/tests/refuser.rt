//! A builder that refuses, for tests.

ghost use Rattle.std.specs.Prelude.{◌≡◌, ⊤};
ghost use Rattle.grammar.specs.Building.{Refuses};

use lang::{Action, Build, BuildFault};

/// A builder with room for no instruction: the end of each function is too much code for it.
/// After a number of actions before that it is refused memory.
#[derive(Drop)]
pub struct Refuser {
    /// How many actions more it takes.
    pub left: usize,
}

impl Refuser {
    /// Takes an action, if one is left.
    fn take(&mut self) -> Result<(), BuildFault>
        ensures { Refuses result ⊤ }
    {
        if self.left == 0 {
            return Err(BuildFault::Memory);
        }
        self.left -= 1;
        Ok(())
    }
}

impl Build for Refuser {
    ghost stands = { λ _ p _. p.instructions ≡ 0 };

    ghost denied = { ⊤ };

    fn act(&mut self, action: Action) -> Result<(), BuildFault> {
        match action {
            Action::EndFunction(_) => Err(BuildFault::Full),
            // Every other action is taken as long as one is left, whatever it is.
            _ => self.take(),
        }
    }
}
