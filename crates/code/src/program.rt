//! The program of a file: its code, without names.

ghost use Rattle.std.specs.Prelude.{◌≡◌, ◌<◌, ◌≤◌, length};
ghost use Rattle.grammar.specs.ProfileNumbers.{IsProfile};
ghost use Rattle.code.specs.Finishing.{IsOfSomeFile};
ghost use Rattle.code.specs.Machine.{address_at, counts_at};

use crate::code_limits::{MOST_FRAMES, MOST_INSTRUCTIONS, MOST_WORDS};
use crate::counts::FunctionCounts;
use crate::instr::Instr;
use arrayvec::ArrayVec;
use grammar::{MOST_NAMES, Profile};
use std::marker::Model;

/// The program of a file. It has no names: those of its file are in the `Pools` that the parse returned.
#[derive(Drop)]
pub struct Program {
    pub(crate) profile: Profile,
    pub(crate) code: ArrayVec<Instr, MOST_INSTRUCTIONS>,
    pub(crate) addresses: ArrayVec<u16, MOST_NAMES>,
    pub(crate) functions: ArrayVec<FunctionCounts, MOST_NAMES>,
    pub(crate) externals: u8,
    pub(crate) main: u8,
}

impl Model for Program {
    ghost use Rattle.std.specs.Prelude.{◌≤◌};
    ghost use Rattle.code.specs.Generation.{Program};
    ghost use Rattle.code.specs.Finishing.{IsOfSomeFile};
    ghost use Rattle.grammar.specs.ProfileNumbers.{IsProfile};
    ghost use Rattle.grammar.specs.declared.name_limits.TheConstants.{MOST_NAMES};

    ghost Value = { Program };

    ghost view = { λ p. record {
      profile = p.profile;
      instructions = p.code.items;
      addresses = p.addresses.items;
      functions = p.functions.items;
      externals = p.externals;
      main = p.main;
    } };

    ghost invariant = { λ p. IsProfile p.profile × IsOfSomeFile (view p) × (p.externals ≤ MOST_NAMES) };
}

impl Default for Program {
    /// Makes the program of `main(){}` by the first profile, in whose place that of a file is put. It is large, and
    /// made where it stays.
    #[inline(always)]
    fn default() -> Program {
        let mut code = ArrayVec::new();
        code.push(Instr::Const(0));
        code.push(Instr::Retsub);
        code.push(Instr::Nop);
        let mut addresses = ArrayVec::new();
        addresses.push(0);
        let mut functions = ArrayVec::new();
        functions.push(FunctionCounts::default());
        Program {
            profile: Profile::first(),
            code,
            addresses,
            functions,
            externals: 0,
            main: 0,
        }
    }
}

impl Program {
    /// Returns the profile by which the program was made.
    #[inline(always)]
    pub fn profile(&self) -> Profile
        ensures profile { result ≡ self.now.profile }
        ensures is_profile { IsProfile result }
    {
        self.profile
    }

    /// Returns how many words the stack of a machine has.
    #[inline(always)]
    pub fn words(&self) -> usize
        ensures words { result ≡ self.now.profile.words }
        ensures most { result ≤ MOST_WORDS }
    {
        self.profile.words() as usize
    }

    /// Returns the most frames that are open at once.
    #[inline(always)]
    pub fn frames(&self) -> usize
        ensures frames { result ≡ self.now.profile.frames }
        ensures most { result ≤ MOST_FRAMES }
    {
        self.profile.frames() as usize
    }

    /// Returns the instructions: the address of each is its index.
    #[inline(always)]
    pub fn instructions(&self) -> &[Instr]
        ensures code { result.now ≡ self.now.instructions }
        ensures most { length result.now ≤ MOST_INSTRUCTIONS }
        ensures limit { length result.now ≤ self.now.profile.instructions }
        ensures file { IsOfSomeFile self.now }
        ensures is_profile { IsProfile self.now.profile }
    {
        self.code.as_slice()
    }

    /// Returns the address of each function, by number.
    #[inline(always)]
    pub fn addresses(&self) -> &[u16]
        ensures addresses { result.now ≡ self.now.addresses }
        ensures each { length result.now ≡ length self.now.functions }
    {
        self.addresses.as_slice()
    }

    /// Returns the counts of each function, by number.
    #[inline(always)]
    pub fn functions(&self) -> &[FunctionCounts]
        ensures { result.now ≡ self.now.functions }
    {
        self.functions.as_slice()
    }

    /// Returns how many externals the file has.
    #[inline(always)]
    pub fn externals(&self) -> usize
        ensures count { result ≡ self.now.externals }
        ensures most { result ≤ MOST_NAMES }
    {
        self.externals as usize
    }

    /// Returns the number of the file's function `main`.
    pub fn main(&self) -> u8
        ensures main { result ≡ self.now.main }
        ensures among { result < length self.now.functions }
        ensures file { IsOfSomeFile self.now }
    {
        self.main
    }

    /// Returns the counts of the function of this number.
    #[inline(always)]
    #[tactic(auto, using(crate::proofs::ProgramLaws::counts_is))]
    pub fn counts(&self, number: u8) -> FunctionCounts
        requires { number < length self.now.functions }
        ensures { result ≡ counts_at self.now number }
    {
        self.functions()[number as usize]
    }

    /// Returns the address of the function of this number.
    #[inline(always)]
    pub fn address(&self, number: u8) -> u16
        requires { number < length self.now.functions }
        ensures { result ≡ address_at self.now number }
    {
        self.addresses()[number as usize]
    }
}
