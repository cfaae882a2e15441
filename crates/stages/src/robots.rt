//! A robot whose stages are shown, with what its instructions and its tree name by number.

ghost use Rattle.std.specs.Prelude.{◌≡◌, ◌≤◌, [], IfOk, Some, length, slice_get};
ghost use Rattle.std.specs.String.{string_bytes};
ghost use Rattle.code.specs.declared.instr.Instr.{Instr};
ghost use Rattle.listings.specs.Spelling.{instr_text};

use crate::origins::Origins;
use code::Program;
use derivations::{CompiledSource, NamedProgram};
use grammar::Pools;
use listings::instruction_text;
use std::alloc::{AllocError, Global};

/// A robot that compiles.
#[derive(Drop)]
pub struct Robot {
    /// Its program.
    pub program: Program,
    /// The names of its externals, functions and variables.
    pub names: Pools,
    /// The lines that its instructions come from.
    pub origins: Origins,
}

impl Robot {
    /// Makes the robot of what its source compiles to. It knows the lines of its first instructions, at most this many.
    pub fn new(alloc: Global, made: CompiledSource, most: usize) -> Result<Robot, AllocError> {
        let CompiledSource {
            program,
            names,
            positions,
        } = made;
        let origins = match &positions {
            Some(found) => Origins::of(alloc, found, most)?,
            None => Origins::none(alloc),
        };
        Ok(Robot {
            program,
            names,
            origins,
        })
    }

    /// Returns the program with the names of its file.
    pub fn named(&self) -> NamedProgram<'_> {
        NamedProgram {
            program: &self.program,
            names: &self.names,
        }
    }

    /// Returns the instruction of an address as a listing has it, and nothing past the last one.
    pub fn instruction(&self, alloc: Global, address: usize) -> Result<String, AllocError>
        ensures value { IfOk result (λ text. (instr : Instr)
            → slice_get self.now.program.instructions address ≡ Some instr → string_bytes text ≡ instr_text instr) }
        ensures past { length self.now.program.instructions ≤ address
            → IfOk result (λ text. string_bytes text ≡ []) }
    {
        match self.program.instructions().get(address) {
            Some(&instr) => match String::from_utf8(instruction_text(alloc, instr)?) {
                Ok(text) => Ok(text),
                // (an instruction is ASCII)
                Err(_) => Err(AllocError),
            },
            None => Ok(String::new(alloc)),
        }
    }

    /// Returns the name of the function that begins at an address, if one does.
    pub fn function_begun_at(&self, address: usize) -> Option<&str> {
        let mut begins = self.program.addresses().iter();
        let number = begins.position(|begin| usize::from(*begin) == address)?;
        Some(self.named().function_name(number))
    }
}
