//! A program's code with each stretch that always gives the same value as one instruction.

use crate::folds::Folds;
use code::Instr;
use listings::instruction_text;
use std::alloc::{AllocError, Global};
use std::str;

/// Returns a line for each instruction that is left, with its new address. Branches lead to where they led.
pub fn folded(alloc: Global, code: &[Instr], folds: &Folds) -> Result<String, AllocError> {
    let mut text = String::new(alloc);
    for (index, instr) in code.iter().enumerate() {
        let address = u32::try_from(index).unwrap_or(u32::MAX);
        match folds.at(address) {
            None => add_line(&mut text, folds, address, *instr)?,
            Some(fold) if fold.begin == address => {
                add_line(&mut text, folds, address, Instr::Const(fold.value))?;
            }
            Some(_) => {}
        }
    }
    Ok(text)
}

/// Adds the line of an instruction. A branch leads to the new address of where it led.
fn add_line(
    text: &mut String,
    folds: &Folds,
    address: u32,
    instr: Instr,
) -> Result<(), AllocError> {
    let moved = match instr {
        Instr::Branch(target) => Instr::Branch(folds.moved(u32::from(target)) as u16),
        other => other,
    };
    let spelled = instruction_text(*text.allocator(), moved)?;
    let spelled = str::from_utf8(spelled.as_slice()).unwrap_or("?");
    write!(text, "{:>5} {spelled}", folds.moved(address))?;
    text.push('\n')
}
