//! The builder that makes trees.

ghost use Rattle.std.specs.Prelude.{◌≡◌, ◌+◌, [], min, nat_le, ⊤};
ghost use Rattle.trees.specs.TreeMakers.{TreeMakerRepresents};

use crate::allocation::push_or_refuse;
use crate::tree::Function;
use crate::tree_stack::TreeStack;
use grammar::{Action, Build, BuildFault, Profile};
use std::alloc::Global;
use std::marker::Model;

/// Makes the tree of each function that is reported to it.
///
/// It asks its allocator for memory, and answers `Memory` if a request is refused. Once the code and the final NOP
/// exceed the profile's instructions, it makes no more trees, and the end of that function answers `Full`.
#[derive(Drop)]
pub struct TreeMaker {
    profile: Profile,
    functions: Vec<Function>,
    stack: TreeStack,
    length: u16,
}

impl Model for TreeMaker {
    ghost use Rattle.std.specs.Coded.{codes};
    ghost use Rattle.trees.specs.contracts.tree.Expr as expr;
    ghost use Rattle.trees.specs.contracts.tree.Statement as statement;
    ghost use Rattle.trees.specs.TreeMakers.{TreeMaker};

    ghost Value = { TreeMaker };

    ghost coded = { Prim.hlevel (codes, expr.the_row.coded, statement.the_row.coded) };

    ghost view = { λ a. record { profile = a.profile; functions = a.functions.items; stack = a.stack; length = a.length } };
}

impl TreeMaker {
    /// Makes a maker without trees, which keeps this allocator and goes by this profile.
    pub fn new(alloc: Global, profile: Profile) -> TreeMaker
        ensures { TreeMakerRepresents result profile [] }
    {
        prove!(0 < profile.instructions());
        TreeMaker {
            profile,
            functions: Vec::new(alloc),
            stack: TreeStack::new(alloc),
            length: 0,
        }
    }

    /// Returns the functions that are done, in the order of their definitions.
    pub fn functions(&self) -> &[Function]
        ensures { result.now ≡ self.now.functions }
    {
        &self.functions
    }

    /// Counts more instructions, and returns whether the code with the final NOP now exceeds the limit.
    fn count_past_limit(&mut self, instructions: u16) -> bool
        ensures profile { self.new.profile ≡ self.old.profile }
        ensures functions { self.new.functions ≡ self.old.functions }
        ensures stack { self.new.stack ≡ self.old.stack }
        ensures length { self.new.length ≡ min (self.old.length + instructions) 65535 }
        ensures passes { result ≡ nat_le self.old.profile.instructions self.new.length }
    {
        self.length = self.length.saturating_add(instructions);
        self.length >= self.profile.instructions()
    }
}

impl Build for TreeMaker {
    ghost stands = { λ m p acts. TreeMakerRepresents m p acts };

    ghost denied = { ⊤ };

    fn act(&mut self, action: Action) -> Result<(), BuildFault> {
        let instructions = action.instructions(self.profile);
        let passes = self.count_past_limit(instructions);
        match action {
            Action::EndFunction(_) if passes => Err(BuildFault::Full),
            Action::EndFunction(variables) => {
                let function = self.stack.end_function(variables);
                push_or_refuse(&mut self.functions, function)
            }
            _ if passes => Ok(()),
            // (the stack lists them)
            _ => self.stack.act(action),
        }
    }
}
