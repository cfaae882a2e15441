//! The cycles of a program's machine.

ghost use Rattle.code.specs.ReachedMachines.{IsReachable};

use crate::replies::Replies;
use crate::robots::Robot;
use code::{Cause, Instr, Intrinsic, Machine, Want};
use std::alloc::AllocError;

/// The first line.
const HEAD: &str =
    " cycle  line    at instruction       stack before -> after, each frame in brackets\n";

/// Adds a line for the start, and one for each of the given number of cycles: its number, the instruction with its
/// line and address, the stack before and after it, and what it asked or stored. After the last reply that is listed
/// for it an intrinsic function replies 0.
pub fn add_execution(
    text: &mut String,
    robot: &Robot,
    cycles: u32,
    replies: &mut Replies,
) -> Result<(), AllocError> {
    text.push_str(HEAD)?;
    let mut machine = Machine::new(&robot.program);
    add_start(text, robot, &machine)?;
    for cycle in 1..=cycles {
        let address = machine.address();
        let line = robot.origins.line(address);
        let instruction = robot.instruction(*text.allocator(), address)?;
        write!(text, "{cycle:>6}{line:>6}{address:>6} {instruction:<17}")?;
        add_stack(text, &machine)?;
        text.push_str(" ->")?;
        add_cycle(text, &mut machine, robot, replies)?;
    }
    Ok(())
}

/// Adds the line of the start: the stack, and the values of main's variables and of the externals.
fn add_start(text: &mut String, robot: &Robot, machine: &Machine) -> Result<(), AllocError> {
    write!(text, "{:>6}{:13}{:17}", 0, "", "start")?;
    add_stack(text, machine)?;
    let locals = robot
        .named()
        .variables(usize::from(robot.program.main()))
        .iter();
    let externals = robot.names.externals().iter();
    let values = locals.zip(machine.words());
    let mut is_first = true;
    for (name, value) in values.chain(externals.zip(machine.externals())) {
        let mark = if is_first { "  ; " } else { ", " };
        write!(text, "{mark}{} = {value}", name.as_str())?;
        is_first = false;
    }
    text.push('\n')
}

/// Runs a cycle, and adds what came of it to its line.
fn add_cycle(
    text: &mut String,
    machine: &mut Machine,
    robot: &Robot,
    replies: &mut Replies,
) -> Result<(), AllocError>
    requires { IsReachable machine.old robot.now.program }
    ensures { IsReachable machine.new robot.now.program }
{
    let (program, address) = (&robot.program, machine.address());
    match machine.next(program) {
        Want::Quiet => {
            machine.advance(program, 0);
            add_stack(text, machine)?;
            add_name(text, robot, machine, address)
        }
        Want::Restart => {
            let cause = cause_text(machine.cause(program));
            machine.restart(program);
            add_stack(text, machine)?;
            writeln!(text, "  ; restart: {cause}")
        }
        Want::Ask(intrinsic, arguments) => {
            let reply = replies.next(intrinsic);
            machine.advance(program, reply);
            add_stack(text, machine)?;
            add_question(text, intrinsic, arguments)?;
            writeln!(text, " replies {reply}")
        }
    }
}

/// Adds the stack, bottom first: the words of each frame in brackets, those from its base up to the next frame's.
fn add_stack(text: &mut String, machine: &Machine) -> Result<(), AllocError> {
    let (words, frames) = (machine.words(), machine.frames());
    for (number, frame) in frames.iter().enumerate() {
        let end = match frames.get(number.saturating_add(1)) {
            Some(next) => usize::from(next.base),
            None => words.len(),
        };
        text.push_str(" [")?;
        add_words(text, words.get(usize::from(frame.base)..end).unwrap_or(&[]))?;
        text.push(']')?;
    }
    Ok(())
}

/// Adds words with blanks between them.
fn add_words(text: &mut String, words: &[i32]) -> Result<(), AllocError> {
    for (index, word) in words.iter().enumerate() {
        let gap = if index > 0 { " " } else { "" };
        write!(text, "{gap}{word}")?;
    }
    Ok(())
}

/// Ends the line of a cycle that asks nothing: the name that its instruction speaks of, if it speaks of one, and the
/// value if it stored one.
fn add_name(
    text: &mut String,
    robot: &Robot,
    machine: &Machine,
    address: usize,
) -> Result<(), AllocError> {
    let Some(name) = robot.named().name_in(address) else {
        return text.push('\n');
    };
    match robot.program.instructions().get(address) {
        Some(&Instr::Store(variable, _)) => {
            writeln!(text, "  ; {name} = {}", machine.variable(variable))
        }
        // all others store nothing
        _ => writeln!(text, "  ; {name}"),
    }
}

/// Adds a question with the arguments that its function uses.
fn add_question(
    text: &mut String,
    intrinsic: Intrinsic,
    arguments: [i32; 2],
) -> Result<(), AllocError> {
    let ([first, second], name) = (arguments, intrinsic.name());
    match intrinsic.argument_count() {
        0 => write!(text, "  ; {name}()"),
        1 => write!(text, "  ; {name}({first})"),
        _ => write!(text, "  ; {name}({first}, {second})"),
    }
}

/// Returns the words for why a machine wants a restart.
fn cause_text(cause: Option<Cause>) -> &'static str {
    match cause {
        Some(Cause::Words) => "the stack has no room",
        Some(Cause::Frames) => "all frames are open",
        Some(Cause::Returned) => "main returned",
        None => "the instruction does not fit",
    }
}
