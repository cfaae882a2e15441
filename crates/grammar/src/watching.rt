//! A builder around another one: a watcher sees each action before the builder inside takes it.

use crate::actions::Action;
use crate::build::{Build, BuildFault};

/// What sees the actions of a file, in the order of the tokens. It can't change or refuse them.
pub trait Watch {
    /// Sees the next action.
    fn see(&mut self, action: Action);
}

/// A builder that shows each action to a watcher, and then hands it on to the builder inside.
///
/// It represents what the builder inside represents, and answers what that one answers. Both are public: its maker
/// gives it a watcher and a builder that are new, and takes from them what they know after the parse.
#[derive(Drop)]
pub struct Watched<W, B> {
    /// What sees each action first.
    pub watcher: W,
    /// The builder inside.
    pub builder: B,
}

impl<W: Watch, B: Build> Build for Watched<W, B> {
    ghost stands = { λ w. B.stands w.builder };

    ghost denied = { B.denied };

    fn act(&mut self, action: Action) -> Result<(), BuildFault> {
        self.watcher.see(action);
        self.builder.act(action)
    }
}
