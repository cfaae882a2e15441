//! The basic blocks of a program's functions, and where each leads.

use code::{Instr, Program};
use std::alloc::{AllocError, Global};

/// A basic block: instructions that are done one after the other, and none of which is jumped to but the first.
#[derive(Clone, Copy)]
pub struct Block {
    /// The address of its first instruction.
    pub begin: usize,
    /// The address of its last instruction.
    pub last: usize,
    /// Whether it may go on to the block after it.
    pub goes_on: bool,
    /// The address of the block that it may jump to.
    pub jump: Option<usize>,
    /// Whether the entry of its function leads to it.
    pub is_reached: bool,
}

/// Returns the blocks of all functions, in the order of their addresses. An edge that a constant rules out is left out,
/// as that which leaves `while (1)`.
pub fn blocks_of(alloc: Global, program: &Program) -> Result<Vec<Block>, AllocError> {
    let code = program.instructions();
    let mut begins = vec![in alloc; false; code.len()]?;
    let mut reached = vec![in alloc; false; code.len()]?;
    mark_begins(program, begins.as_mut_slice());
    for address in program.addresses() {
        mark(reached.as_mut_slice(), usize::from(*address));
    }
    let mut blocks = Vec::new(alloc);
    let mut begin = 0;
    for at in 1..code.len() {
        if is_marked(begins.as_slice(), at) {
            let block = block_of(code, begin, at.saturating_sub(1), reached.as_slice());
            mark_reached(&block, reached.as_mut_slice());
            blocks.push(block)?;
            begin = at;
        }
    }
    Ok(blocks)
}

/// Marks an address.
fn mark(marks: &mut [bool], address: usize) {
    if let Some(place) = marks.get_mut(address) {
        *place = true;
    }
}

/// Reports whether an address is marked.
fn is_marked(marks: &[bool], address: usize) -> bool {
    marks.get(address) == Some(&true)
}

/// Marks where blocks begin: where functions do, where jumps lead, and behind each jump and each return.
fn mark_begins(program: &Program, begins: &mut [bool]) {
    for address in program.addresses() {
        mark(begins, usize::from(*address));
    }
    for (at, instr) in program.instructions().iter().enumerate() {
        match *instr {
            Instr::Branch(to) => {
                mark(begins, usize::from(to));
                mark(begins, at.saturating_add(1));
            }
            Instr::Retsub => mark(begins, at.saturating_add(1)),
            Instr::Const(_)
            | Instr::Fetch(_)
            | Instr::Store(..)
            | Instr::Binop(_)
            | Instr::Fcall(_)
            | Instr::Chop
            | Instr::Frame
            | Instr::Truth
            | Instr::Nop => (),
        }
    }
}

/// Returns the block of these addresses. What comes before it in its function decides whether it is reached: a jump back
/// leads to the head of a loop, which is reached from above.
fn block_of(code: &[Instr], begin: usize, last: usize, reached: &[bool]) -> Block {
    let (goes_on, jump) = match code.get(last).copied() {
        Some(Instr::Branch(to)) => match constant_before(code, begin, last) {
            Some(0) => (false, Some(usize::from(to))),
            Some(_) => (true, None),
            None => (true, Some(usize::from(to))),
        },
        Some(Instr::Retsub) => (false, None),
        // every other instruction goes on to the next one
        _ => (true, None),
    };
    Block {
        begin,
        last,
        goes_on,
        jump,
        is_reached: is_marked(reached, begin),
    }
}

/// Returns the constant that the last instruction of a block takes, if the one before it pushes one.
fn constant_before(code: &[Instr], begin: usize, last: usize) -> Option<i32> {
    match code.get(begin..last)?.last()? {
        Instr::Const(value) => Some(*value),
        // what others push isn't known before they run
        _ => None,
    }
}

/// Marks where a block leads, if it is reached.
fn mark_reached(block: &Block, reached: &mut [bool]) {
    if !block.is_reached {
        return;
    }
    if block.goes_on {
        mark(reached, block.last.saturating_add(1));
    }
    if let Some(address) = block.jump {
        mark(reached, address);
    }
}
