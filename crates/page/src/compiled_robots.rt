//! The robots of a match, each compiled once.

ghost use Rattle.std.specs.Prelude.{◌≡◌, ◌≤◌, [], Some, length};
ghost use Rattle.battles.specs.Pairing.{paired};
ghost use Rattle.settings.specs.declared.settings.Mode.TheVariants.{Matches};

use crate::robots::RobotFile;
use arrayvec::ArrayVec;
use code::{Maker, Program};
use derivations::{NamedProgram, SourcePositions, positions_of};
use grammar::Scope;
use series::{DeviceFault, MOST_FILES, Sink, TakesPrograms};
use std::mem;

/// The programs of robots, and beside them the names of their files, which a program hasn't.
#[derive(Drop)]
pub(crate) struct CompiledRobots {
    pub(crate) programs: ArrayVec<Program, MOST_FILES>,
    names: [Scope; MOST_FILES],
}

impl CompiledRobots {
    /// Makes those of no robots.
    pub(crate) fn new() -> CompiledRobots
        ensures { result.programs.items ≡ [] }
    {
        CompiledRobots {
            programs: ArrayVec::new(),
            names: [Scope::new(), Scope::new(), Scope::new(), Scope::new()],
        }
    }

    /// Returns how many programs there are.
    pub(crate) fn len(&self) -> usize
        ensures programs { result ≡ length self.now.programs.items }
        ensures most { result ≤ MOST_FILES }
    {
        self.programs.len()
    }

    /// Returns how many robots fight: one of each program, and two of a single one.
    pub(crate) fn robots(&self) -> usize
        ensures robots { result ≡ length (paired self.now.programs.items) }
        ensures most { result ≤ MOST_FILES }
    {
        if self.len() == 1 { 2 } else { self.len() }
    }

    /// Returns the program of a robot, with its names. A single file's is that of both robots.
    pub(crate) fn named(&self, robot: usize) -> Option<NamedProgram<'_>> {
        let file = robot.min(self.len().saturating_sub(1));
        let program = self.programs.as_slice().get(file)?;
        let names = self.names[file].pools();
        Some(NamedProgram { program, names })
    }

    /// Finds the positions of the instructions of each program in the source of its robot.
    pub(crate) fn positions(
        &self,
        robots: &[RobotFile],
    ) -> ArrayVec<Option<SourcePositions>, MOST_FILES> {
        let mut found = ArrayVec::new();
        for (program, robot) in self.programs.as_slice().iter().zip(robots) {
            let _ = found.try_push(positions_of(program, robot.source()));
        }
        found
    }
}

impl TakesPrograms for CompiledRobots {
    ghost kept = { λ robots. Some robots.programs.items };

    ghost mode = { λ robots. Matches };

    fn take_program<S: Sink>(
        &mut self,
        _: &[u8],
        names: &mut Scope,
        maker: &mut Maker,
        _: &mut S,
    ) -> Result<(), DeviceFault> {
        let mut program = Program::default();
        maker.finish_into(names.pools(), &mut program);
        mem::swap(names, &mut self.names[self.programs.len()]);
        self.programs.push(program);
        Ok(())
    }
}
