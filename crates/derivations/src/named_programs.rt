//! What the instructions of a program name by number, and where its lines are entered.

ghost use Rattle.std.specs.Prelude.{◌≡◌, ℕ, ◌<◌, ◌≤◌, ◌⊎◌, ◌↔◌, IsTrue, length, slice_index};

use crate::addresses::SourcePositions;
use code::{Instr, Program};
use grammar::{Callee, Pools, Var};
use tokens::Name;

/// A program, and the names of its file, which it hasn't.
#[derive(Clone, Copy)]
pub struct NamedProgram<'a> {
    /// The program.
    pub program: &'a Program,
    /// The names of its externals, functions and variables.
    pub names: &'a Pools,
}

impl<'a> NamedProgram<'a> {
    /// Returns the number of the function that holds an address.
    pub fn function(&self, address: usize) -> usize {
        function_at(self.program.addresses(), address)
    }

    /// Returns the name of the function of this number, a question mark if there is none.
    pub fn function_name(&self, number: usize) -> &'a str {
        match self.names.functions().get(number) {
            Some(function) => function.name().as_str(),
            None => "?",
        }
    }

    /// Returns the names of the variables of the function of this number.
    pub fn variables(&self, function: usize) -> &'a [Name] {
        match self.names.functions().get(function) {
            Some(function) => function.variables(),
            None => &[],
        }
    }

    /// Returns the name that the instruction of an address speaks of by number: its variable, or the file's function
    /// that it calls.
    pub fn name_in(&self, address: usize) -> Option<&'a str> {
        match self.program.instructions().get(address)? {
            &(Instr::Fetch(variable) | Instr::Store(variable, _)) => {
                Some(self.variable_name(self.function(address), variable))
            }
            &Instr::Fcall(Callee::Function(number)) => {
                Some(self.function_name(usize::from(number)))
            }
            Instr::Const(_)
            | Instr::Binop(_)
            | Instr::Fcall(Callee::Intrinsic(_))
            | Instr::Retsub
            | Instr::Branch(_)
            | Instr::Chop
            | Instr::Frame
            | Instr::Truth
            | Instr::Nop => None,
        }
    }

    /// Returns the name of a variable of the file or of the function of this number, a question mark if there is none.
    pub fn variable_name(&self, function: usize, variable: Var) -> &'a str {
        let (names, number) = match variable {
            Var::External(number) => (self.names.externals(), number),
            Var::Local(number) => (self.variables(function), number),
        };
        names.get(usize::from(number)).map_or("?", Name::as_str)
    }

    /// Reports whether the line of an instruction is entered at it: it is the first one of its line or function, or a
    /// jump leads to it from another line, or back within the line.
    pub fn is_entry(&self, positions: &SourcePositions, address: usize) -> bool {
        let before = address.saturating_sub(1);
        address == 0
            || positions.line(before) != positions.line(address)
            || self.function(before) != self.function(address)
            || self.is_jumped_to(positions, address)
    }

    /// Reports whether a jump leads to an address from another line, or from a later address.
    fn is_jumped_to(&self, positions: &SourcePositions, address: usize) -> bool {
        let line = positions.line(address);
        for (from, instr) in self.program.instructions().iter().enumerate() {
            if let Instr::Branch(to) = instr
                && usize::from(*to) == address
                && (from >= address || positions.line(from) != line)
            {
                return true;
            }
        }
        false
    }
}

/// Returns the number of the function that holds an address: of those that begin there or before, the last. The
/// functions begin at these addresses.
pub fn function_at(addresses: &[u16], address: usize) -> usize
    ensures inside { 0 < length addresses.now → result < length addresses.now }
    ensures before { (k : ℕ) → k < length addresses.now → slice_index addresses.now k ≤ address
        → slice_index addresses.now result ≤ address }
    ensures last { (k : ℕ) → k < length addresses.now → slice_index addresses.now k ≤ address
        → slice_index addresses.now k ≤ slice_index addresses.now result }
{
    let mut found = 0;
    for k in 0..addresses.len() {
        if is_nearer(
            usize::from(addresses[k]),
            usize::from(addresses[found]),
            address,
        ) {
            found = k;
        }
    }
    found
}

/// Reports whether a function that begins at `begin` is nearer to an address than another one: it begins there or
/// before, and the other one begins earlier, or after the address.
fn is_nearer(begin: usize, other: usize, address: usize) -> bool
    ensures { IsTrue result ↔ ((begin ≤ address) × ((other < begin) ⊎ (address < other))) }
{
    begin <= address && (other < begin || address < other)
}
