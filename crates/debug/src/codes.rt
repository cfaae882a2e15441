//! The instructions of a robot: where each comes from, and whether its line is entered at it.

use code::Instr;
use grammar::Callee;
use notes::{NotedProgram, add_instruction};
use std::alloc::{AllocError, Global};
use tools::{Draft, Text};

/// Adds a row for each instruction of a robot, and an empty line. The only error is that memory is refused.
pub fn add_code(text: &mut Draft, noted: &NotedProgram<'_>) -> Result<(), AllocError> {
    let reached = reached(text.alloc(), noted)?;
    for (address, is_reached) in reached.iter().enumerate() {
        let (line, function) = noted.position(address);
        let column = noted.note.positions.column(address);
        let how = if *is_reached {
            standing(noted, address)
        } else {
            "never"
        };
        write!(
            text,
            "code\t{address}\t{line}\t{column}\t{how}\t{function}\t"
        );
        add_instruction(text, noted, address)?;
        writeln!(text, "\t{}", noted.named().name_in(address).unwrap_or(""));
    }
    text.add("\n");
    Ok(())
}

/// Returns the word for how an instruction stands to its line, to which a robot may come.
fn standing(noted: &NotedProgram<'_>, address: usize) -> &'static str {
    if !noted.named().is_entry(&noted.note.positions, address) {
        "inside"
    } else if is_jump(noted, address) {
        "jumps"
    } else {
        "enters"
    }
}

/// Reports whether nothing but a jump begins at an address, such as that of an `else`: both of its instructions come from
/// the same word.
fn is_jump(noted: &NotedProgram<'_>, address: usize) -> bool {
    let next = address.saturating_add(1);
    let instrs = noted.program.instructions();
    let positions = &noted.note.positions;
    match (instrs.get(address), instrs.get(next)) {
        (Some(Instr::Const(0)), Some(Instr::Branch(_))) => {
            positions.place(address) == positions.place(next)
        }
        _ => false,
    }
}

/// Marks the instructions to which a robot may come from the beginning of `main` on. To the others no way leads.
fn reached(alloc: Global, noted: &NotedProgram<'_>) -> Result<Vec<bool>, AllocError> {
    let instrs = noted.program.instructions();
    let mut reached = Vec::new(alloc);
    for _instr in instrs {
        reached.push(false)?;
    }
    if let Some(begin) = noted
        .program
        .addresses()
        .get(usize::from(noted.program.main()))
    {
        mark(reached.as_mut_slice(), usize::from(*begin));
    }
    for _round in 0..instrs.len() {
        if !spread(noted, reached.as_mut_slice()) {
            break;
        }
    }
    Ok(reached)
}

/// Marks what follows the marked instructions. Reports whether there was something to mark.
fn spread(noted: &NotedProgram<'_>, reached: &mut [bool]) -> bool {
    let mut is_new = false;
    for address in 0..noted.program.instructions().len() {
        if reached.get(address) == Some(&true) {
            for next in &followers(noted, address) {
                if let Some(next) = next {
                    is_new |= mark(reached, *next);
                }
            }
        }
    }
    is_new
}

/// Marks an address. Reports whether it wasn't marked.
fn mark(reached: &mut [bool], address: usize) -> bool {
    match reached.get_mut(address) {
        Some(is_reached) if !*is_reached => {
            *is_reached = true;
            true
        }
        _ => false,
    }
}

/// Returns the addresses of what may come right after an instruction.
fn followers(noted: &NotedProgram<'_>, address: usize) -> [Option<usize>; 2] {
    let next = Some(address.saturating_add(1));
    match noted.program.instructions().get(address) {
        Some(Instr::Retsub | Instr::Nop) | None => [None, None],
        Some(Instr::Branch(to)) => match tested(noted, address) {
            Some(0) => [Some(usize::from(*to)), None],
            Some(_) => [next, None],
            None => [Some(usize::from(*to)), next],
        },
        Some(Instr::Fcall(Callee::Function(number))) => {
            match noted.program.addresses().get(usize::from(*number)) {
                Some(begin) => [Some(usize::from(*begin)), next],
                None => [None, next],
            }
        }
        Some(_) => [next, None],
    }
}

/// Returns what a branch tests, if that is the same each time: the constant in front, if no jump leads behind that.
fn tested(noted: &NotedProgram<'_>, address: usize) -> Option<i32> {
    let instrs = noted.program.instructions();
    for instr in instrs {
        if let Instr::Branch(to) = instr
            && usize::from(*to) == address
        {
            return None;
        }
    }
    match instrs.get(address.checked_sub(1)?) {
        Some(Instr::Const(value)) => Some(*value),
        _ => None,
    }
}
