//! A builder that keeps a list of the actions that are reported to it, around another builder, for tests.

ghost use Rattle.std.specs.Prelude.{◌≡◌, ⊤};
ghost use Rattle.grammar.specs.Building.{Refuses};

use lang::{Action, Build, BuildFault};
use std::alloc::Global;

/// The actions that the builder inside took.
#[derive(Drop)]
pub struct Recorder<B> {
    /// The builder inside.
    pub inner: B,
    /// The actions so far.
    pub actions: Vec<Action>,
}

impl<B> Recorder<B> {
    /// Records around this builder, which is new.
    pub fn around(alloc: Global, inner: B) -> Recorder<B>
        ensures { result.inner ≡ inner }
    {
        Recorder {
            inner,
            actions: Vec::new(alloc),
        }
    }

    /// Adds an action.
    fn add(&mut self, action: Action) -> Result<(), BuildFault>
        ensures inner { self.new.inner ≡ self.old.inner }
        ensures memory { Refuses result ⊤ }
    {
        match self.actions.push(action) {
            Ok(()) => Ok(()),
            Err(_) => Err(BuildFault::Memory),
        }
    }
}

impl<B: Build> Build for Recorder<B> {
    ghost stands = { λ r. B.stands r.inner };

    ghost denied = { ⊤ };

    fn act(&mut self, action: Action) -> Result<(), BuildFault> {
        self.inner.act(action)?;
        self.add(action)
    }
}
