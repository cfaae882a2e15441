//! The storage of a machine from cycle to cycle, along the replies.

ghost use Rattle.std.specs.Prelude.{◌≡◌, true, ◌-◌, ◌<◌, ◌≤◌, ◌≢◌, ℤ, List, [], ◌∷◌, ◌++◌, Some};
ghost use Rattle.grammar.specs.declared.resolved_names.Intrinsic.{Intrinsic};
ghost use Rattle.code.specs.Machine.{want_next, want_code};
ghost use Rattle.code.specs.Causes.{cause_next};
ghost use Rattle.code.specs.Registers.{machine_of};
ghost use Rattle.code.specs.ReachedMachines.{IsReached, IsReachable, HasRunQuiet};

use crate::cause::Cause;
use crate::instr::Instr;
use crate::program::Program;
use crate::storage::{Registers, Storage};
use crate::want::Want;
use grammar::Callee;

/// The result of a run of quiet cycles: the registers then, and how many of its cycles were left.
#[derive(Clone, Copy, Drop)]
pub(crate) struct QuietRun {
    pub(crate) registers: Registers,
    pub(crate) left: u32,
}

impl Storage {
    /// Returns what the machine wants next.
    #[inline(always)]
    #[tactic(auto, using(crate::proofs::Machines::wants_code))]
    pub(crate) fn next_want(&self, program: &Program, registers: Registers) -> Want
        requires { IsReachable (machine_of registers self.now) program.now }
        ensures code { (trace : List ℤ) → IsReached (machine_of registers self.now) program.now trace
            → result ≡ want_code program.now trace }
    {
        let instr = self.instr_at(program, registers);
        self.want_of_instr(program, registers, instr)
    }

    /// Reports whether the next instruction asks. A machine at such an instruction needs no run to find it out.
    #[inline(always)]
    pub(crate) fn asks(&self, program: &Program, registers: Registers) -> bool
        requires { IsReachable (machine_of registers self.now) program.now }
        ensures { result ≡ true → want_next program.now (machine_of registers self.now) ≢ Want.Quiet }
    {
        matches!(
            *self.instr_at(program, registers),
            Instr::Fcall(Callee::Intrinsic(_))
        )
    }

    /// Returns what the machine wants if it wants something: a reply or a restart.
    #[inline(always)]
    pub(crate) fn stopped_want(&self, program: &Program, registers: Registers) -> Want
        requires fits { IsReachable (machine_of registers self.now) program.now }
        requires stopped { want_next program.now (machine_of registers self.now) ≢ Want.Quiet }
        ensures { result ≡ want_next program.now (machine_of registers self.now) }
    {
        let instr = self.instr_at(program, registers);
        self.asked_or_restart(program, registers, instr)
    }

    /// Returns why the machine wants a restart, if it does.
    pub(crate) fn cause(&self, program: &Program, registers: Registers) -> Option<Cause>
        requires { IsReachable (machine_of registers self.now) program.now }
        ensures { result ≡ cause_next program.now (machine_of registers self.now) }
    {
        let instr = self.instr_at(program, registers);
        self.cause_of_instr(program, registers, instr)
    }

    /// Takes the reply to what the machine asks.
    #[inline(always)]
    pub(crate) fn reply(&mut self, program: &Program, registers: Registers, reply: i32) -> Registers
        requires fits { IsReachable (machine_of registers self.old) program.now }
        requires asks { (intrinsic : Intrinsic) × (arguments : List ℤ)
            × (want_next program.now (machine_of registers self.old) ≡ Want.Ask intrinsic arguments) }
        ensures stands { (trace : List ℤ) → IsReached (machine_of registers self.old) program.now trace
            → IsReached (machine_of result self.new) program.now (trace ++ reply ∷ []) }
        ensures fits { IsReachable (machine_of result self.new) program.now }
    {
        // For the proof alone: the next instruction is one of the program.
        let _instr = self.instr_at(program, registers);
        self.take_reply(registers, reply)
    }

    /// Runs up to `most` cycles that ask nothing: some are left only if the machine then wants a reply or a restart.
    #[inline(always)]
    pub(crate) fn run_quiet(&mut self, program: &Program, from: Registers, most: u32) -> QuietRun
        requires { IsReachable (machine_of from self.old) program.now }
        ensures most { result.left ≤ most }
        ensures coasted { HasRunQuiet program.now (machine_of from self.old) (most - result.left)
            (machine_of result.registers self.new) }
        ensures ends { 0 < result.left → want_next program.now (machine_of result.registers self.new) ≢ Want.Quiet }
    {
        let room = program.words();
        let mut registers = from;
        let mut left = most;
        while left > 0 {
            let instr = self.instr_at(program, registers);
            match self.run_instr(program, room, registers, instr) {
                Some(next) => registers = next,
                None => break,
            }
            left -= 1;
        }
        QuietRun { registers, left }
    }
}
