//! How instructions, words of a stack, and calls are written.

use crate::notes::NotedProgram;
use grammar::Intrinsic;
use listings::instruction_text;
use std::alloc::AllocError;
use std::str;
use tools::{Draft, Text};

/// Adds words with blanks between them.
pub fn add_words(text: &mut Draft, words: &[i32]) {
    for (n, word) in words.iter().enumerate() {
        text.add(if n > 0 { " " } else { "" });
        write!(text, "{word}");
    }
}

/// Adds the instruction of an address as a listing has it. Adds nothing past the last one. The only error is that
/// memory is refused.
pub fn add_instruction(
    text: &mut Draft,
    noted: &NotedProgram<'_>,
    address: usize,
) -> Result<(), AllocError> {
    if let Some(instr) = noted.program.instructions().get(address) {
        let instruction = instruction_text(text.alloc(), *instr)?;
        text.add(str::from_utf8(instruction.as_slice()).unwrap_or("?"));
    }
    Ok(())
}

/// Adds a call of an intrinsic function with the arguments that it uses.
pub fn add_call(text: &mut Draft, intrinsic: Intrinsic, arguments: [i32; 2]) {
    let (name, [first, second]) = (intrinsic.name(), arguments);
    match intrinsic.argument_count() {
        0 => write!(text, "{name}()"),
        1 => write!(text, "{name}({first})"),
        _ => write!(text, "{name}({first}, {second})"),
    }
}
