//! The programs of a series.

ghost use Rattle.std.specs.Prelude.{◌≡◌, ◌<◌, ◌≤◌, [], ◌∷◌, ◌++◌, List, length, flat_map, slice_get, take, Some};
ghost use Rattle.std.specs.Option.{option_to_list};
ghost use Rattle.battles.specs.Pairing.{paired};
ghost use Rattle.battles.specs.Programs.{AllSome, AreOfProfile};
ghost use Rattle.battles.specs.Translated.{AreTranslated};
ghost use Rattle.code.specs.Generation.{Program};
ghost use Rattle.operations.specs.Filling.{translated};
ghost use Rattle.engine.specs.Executables.{IsTranslated, executable_of};

use arrayvec::ArrayVec;
use code::Program;
use engine::Executable;
use operations::{Operations, translate};
use settings::MOST_FILES;
use std::marker::Model;

/// The programs of a series, one to four of one profile, in the order of their files.
#[derive(Drop)]
pub struct Programs {
    programs: ArrayVec<Option<Program>, MOST_FILES>,
    // those of each program: none if it couldn't be translated. They are translated where they stay
    operations: [Operations; MOST_FILES],
}

impl Model for Programs {
    ghost Value = { List Program };

    ghost view = { λ p. flat_map option_to_list p.programs.items };

    ghost invariant = { λ p. AllSome p.programs.items
        × AreTranslated (view p) (take (length p.programs.items) p.operations) };
}

impl Programs {
    /// Makes the programs of a series, none so far.
    pub fn new() -> Programs
        ensures { result ≡ [] }
    {
        Programs {
            programs: ArrayVec::new(),
            operations: Default::default(),
        }
    }

    /// Returns how many programs there are.
    pub fn len(&self) -> usize
        ensures programs { result ≡ length self.now }
        ensures most { result ≤ MOST_FILES }
    {
        self.programs.len()
    }

    /// Adds a program, of the profile of those that are there, and translates it for the battles.
    pub fn add_translated(&mut self, program: Program)
        requires room { length self.old < MOST_FILES }
        requires alike { AreOfProfile program.profile self.old }
        ensures { self.new ≡ self.old ++ program ∷ [] }
    {
        let file = self.programs.len();
        let operations = &mut self.operations[file];
        translate_in_place(&mut self.programs, operations, program);
    }

    /// Returns the program of the file with this index.
    #[inline(always)]
    pub fn program(&self, file: usize) -> &Program
        requires { file < length self.now }
        ensures { slice_get self.now file ≡ Some result.now }
    {
        match &self.programs.as_slice()[file] {
            Some(program) => program,
            None => unreachable!(),
        }
    }

    /// Returns the operations of the program of the file with this index.
    fn translation(&self, file: usize) -> &Operations
        requires { file < length self.now }
        ensures { (code : Program) → slice_get self.now file ≡ Some code
            → IsTranslated (executable_of code (translated result.now)) }
    {
        prove!(self.len() <= MOST_FILES);
        &self.operations[file]
    }

    /// Returns how many robots fight: one of each program, and two of a single one.
    pub fn robots(&self) -> usize
        ensures robots { result ≡ length (paired self.now) }
        ensures most { result ≤ MOST_FILES }
    {
        if self.len() == 1 { 2 } else { self.len() }
    }

    /// Returns the executable of the robot with this index.
    pub(crate) fn executable(&self, robot: usize) -> Executable<'_>
        requires { robot < length (paired self.now) }
        ensures { slice_get (paired self.now) robot ≡ Some result.program }
    {
        let file = if self.len() == 1 { 0 } else { robot };
        Executable::new(self.program(file), self.translation(file))
    }
}

/// Adds a program to others, and translates it there: it is large, so it is moved once.
fn translate_in_place(
    programs: &mut ArrayVec<Option<Program>, MOST_FILES>,
    operations: &mut Operations,
    program: Program,
)
    requires room { length programs.old.items < MOST_FILES }
    ensures kept { programs.new.items ≡ programs.old.items ++ Some program ∷ [] }
    ensures translated { IsTranslated (executable_of program (translated operations.new)) }
{
    let file = programs.len();
    programs.push(Some(program));
    match &programs.as_slice()[file] {
        Some(kept) => translate(kept, operations),
        None => unreachable!(),
    }
}
