//! The executables of a battle: what each robot runs, looked up once.

ghost use Rattle.std.specs.Prelude.{◌≡◌, ◌<◌, ◌≤◌, length, map, slice_get, Some};
ghost use Rattle.battles.specs.Pairing.{paired};
ghost use Rattle.engine.specs.Executables.{Executable};

use crate::programs::Programs;
use arrayvec::ArrayVec;
use engine::Executable;
use settings::MOST_FILES;
use std::marker::Model;

/// The executables of the robots in a battle, by the robots' numbers.
#[derive(Drop)]
pub(crate) struct Executables<'a> {
    exes: ArrayVec<Option<Executable<'a>>, MOST_FILES>,
}

impl<'a> Model for Executables<'a> {
    ghost use Rattle.std.specs.Prelude.{List, flat_map};
    ghost use Rattle.std.specs.Option.{option_to_list};
    ghost use Rattle.engine.specs.Executables.{Executable};
    ghost use Rattle.battles.specs.Programs.{AllSome};

    ghost Value = { List Executable };

    ghost view = { λ p. flat_map option_to_list p.exes.items };

    ghost invariant = { λ p. AllSome p.exes.items };
}

impl<'a> Executables<'a> {
    /// Looks up the executable of each robot: one of each file, and two of a single one.
    pub(crate) fn new(programs: &'a Programs) -> Executables<'a>
        ensures { map (λ e. e.program) result ≡ paired programs.now }
    {
        let mut exes = ArrayVec::new();
        for robot in 0..programs.robots() {
            exes.push(Some(programs.executable(robot)));
        }
        Executables { exes }
    }

    /// Returns how many robots there are.
    pub(crate) fn len(&self) -> usize
        ensures robots { result ≡ length self.now }
        ensures most { result ≤ MOST_FILES }
    {
        self.exes.len()
    }

    /// Lends the executable of the robot with this number where it is kept: a function out of line takes this one, since
    /// the robot's own would be written to memory for it.
    #[inline(always)]
    pub(crate) fn kept_executable(&self, robot: usize) -> &Executable<'a>
        requires { robot < length self.now }
        ensures { slice_get self.now robot ≡ Some result.now }
    {
        match &self.exes.as_slice()[robot] {
            Some(exe) => exe,
            None => unreachable!(),
        }
    }

    /// Returns the executable of the robot with this number: one of its own, so that the program is not looked up again
    /// after each of the robot's turns.
    #[inline(always)]
    pub(crate) fn executable(&self, robot: usize) -> Executable<'a>
        requires { robot < length self.now }
        ensures { slice_get self.now robot ≡ Some result }
    {
        self.kept_executable(robot).again()
    }
}
