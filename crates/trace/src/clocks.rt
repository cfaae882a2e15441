//! What calls of functions and turns of loops took, measured from cycle to cycle of a robot.

use code::{Instr, Program};
use grammar::Callee;
use std::alloc::{AllocError, Global};

/// How many cycles something took, each time that it was done.
#[derive(Clone, Copy, Default, Drop)]
pub struct Taken {
    /// How often it was done.
    pub count: u64,
    /// The fewest cycles that it took.
    pub least: u64,
    /// The most cycles that it took.
    pub most: u64,
    /// The cycles that it took in all.
    pub all: u64,
}

impl Taken {
    /// Counts one time, of all cycles from the one in which it began to the one in which it ended.
    fn note(&mut self, begun: u32, ended: u32) {
        let cycles = u64::from(ended.saturating_sub(begun)).saturating_add(1);
        let least = if self.count == 0 { cycles } else { self.least };
        self.least = least.min(cycles);
        self.most = self.most.max(cycles);
        self.all = self.all.saturating_add(cycles);
        self.count = self.count.saturating_add(1);
    }
}

/// What the instruction of an address begins or ends. A part is a function or a loop.
#[derive(Clone, Copy)]
enum Mark {
    /// Nothing.
    Nothing,
    /// A call or a turn of the part of this number.
    Begin(usize),
    /// The innermost call or turn of a part from the first number up to that before the second one.
    End(usize, usize),
}

/// What measures a robot's calls and turns. A call goes from its `FCALL` to its `RETSUB`, a turn from the loop's test
/// to the branch back. Only those are counted that end so: no turn is that leaves its loop, and nothing that a restart
/// cuts off.
#[derive(Drop)]
pub struct Clock {
    /// What the instruction of each address begins or ends.
    marks: Vec<Mark>,
    /// The parts whose calls and turns go on, each within those before it, and the cycle in which it began. Turns of a
    /// call may have been left.
    running: Vec<(usize, u32)>,
    /// What the calls of each function took, by its number, and then the turns of each loop, in the order of the source.
    parts: Vec<Taken>,
    /// How many functions there are.
    functions: usize,
    /// Whether no memory was refused.
    is_whole: bool,
}

impl Clock {
    /// Makes the clock of a robot that runs a program.
    pub fn new(alloc: Global, program: &Program) -> Result<Clock, AllocError> {
        let functions = program.addresses().len();
        let mut clock = Clock {
            marks: Vec::new(alloc),
            running: Vec::new(alloc),
            parts: vec![in alloc; Taken::default(); functions]?,
            functions,
            is_whole: true,
        };
        for instruction in program.instructions() {
            clock.marks.push(mark_of(instruction, functions))?;
        }
        for (test, again) in loops(alloc, program.instructions())?.as_slice() {
            let part = clock.parts.len();
            clock.mark(*test, Mark::Begin(part));
            clock.mark(*again, Mark::End(part, part.saturating_add(1)));
            clock.parts.push(Taken::default())?;
        }
        Ok(clock)
    }

    /// Sets the mark of an address.
    fn mark(&mut self, address: usize, mark: Mark) {
        if let Some(kept) = self.marks.get_mut(address) {
            *kept = mark;
        }
    }

    /// Passes a cycle, in which the instruction of an address is run.
    pub fn pass(&mut self, cycle: u32, address: usize) {
        match self.marks.get(address).copied() {
            Some(Mark::Begin(part)) => {
                self.is_whole = self.is_whole && self.running.push((part, cycle)).is_ok();
            }
            Some(Mark::End(first, behind)) => self.end(first, behind, cycle),
            Some(Mark::Nothing) | None => {}
        }
    }

    /// Ends the innermost call or turn of one of these parts, and all within it: their loops were left. One that began
    /// before the span's first cycle isn't known.
    fn end(&mut self, first: usize, behind: usize, cycle: u32) {
        for _ in 0..self.running.len() {
            if let Some((part, begun)) = self.running.pop()
                && first <= part
                && part < behind
            {
                if let Some(taken) = self.parts.get_mut(part) {
                    taken.note(begun, cycle);
                }
                return;
            }
        }
    }

    /// Cuts off all that goes on: the robot restarts.
    pub fn restart(&mut self) {
        self.running.clear();
    }

    /// Returns what the calls of each function took, by its number, and what the turns of each loop took, in the order of
    /// the source.
    pub fn taken(&self) -> (&[Taken], &[Taken]) {
        let functions = self.functions.min(self.parts.len());
        self.parts.as_slice().split_at(functions)
    }

    /// Reports whether no memory was refused.
    pub fn is_whole(&self) -> bool {
        self.is_whole
    }
}

/// Returns what an instruction of a program with this number of functions begins or ends, but for loops.
fn mark_of(instruction: &Instr, functions: usize) -> Mark {
    match instruction {
        Instr::Fcall(Callee::Function(number)) => Mark::Begin(usize::from(*number)),
        Instr::Retsub => Mark::End(0, functions),
        _ => Mark::Nothing,
    }
}

/// Returns the addresses of each loop's test and of its branch back, in the order of the source. Only loops branch
/// back.
fn loops(alloc: Global, instructions: &[Instr]) -> Result<Vec<(usize, usize)>, AllocError> {
    let mut loops = Vec::new(alloc);
    for (address, instruction) in instructions.iter().enumerate() {
        if let Instr::Branch(target) = instruction
            && usize::from(*target) < address
        {
            loops.push((usize::from(*target), address))?;
        }
    }
    loops.sort()?;
    Ok(loops)
}
