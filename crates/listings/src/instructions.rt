//! How instructions are spelled.

ghost use Rattle.std.specs.Prelude.{◌≡◌, ◌+◌, ◌-◌, ◌^◌, ◌<◌, ◌≤◌, [], ◌++◌, IfOk, length};
ghost use Rattle.std.specs.Fmt.{signed_decimal};
ghost use Rattle.sinks.specs.Pens.{Adds, MayFail};
ghost use Rattle.sinks.specs.Puts.{CanFail, Puts};
ghost use Rattle.listings.specs.Spelling.{callee_text, instr_text, variable_text};

use code::Instr;
use grammar::{Callee, Var, operator_punctuator, store_punctuator};
use sinks::{DeviceFault, MemorySink, Pen, Sink};
use std::alloc::{AllocError, Global};

/// Returns an instruction as a listing has it, without its address.
pub fn instruction_text(alloc: Global, instr: Instr) -> Result<Vec<u8>, AllocError>
    ensures { IfOk result (λ text. text.items ≡ instr_text instr) }
{
    let mut sink = MemorySink::new(alloc);
    match put_instruction(&mut sink, instr) {
        Ok(()) => sink.joined(),
        Err(DeviceFault) => Err(AllocError),
    }
}

/// Puts an instruction as a listing has it, without its address.
pub fn put_instruction<S: Sink>(sink: &mut S, instr: Instr) -> Result<(), DeviceFault>
    requires { CanFail (S.written sink.old) }
    ensures { Puts result (S.written sink.old) (S.written sink.new) (instr_text instr) }
{
    let mut pen = Pen::new();
    add_instruction(&mut pen, sink, instr);
    pen.finish(sink)
}

/// Adds an instruction: its word, and its operand if it has one.
pub(crate) fn add_instruction<S: Sink>(pen: &mut Pen, sink: &mut S, instr: Instr)
    requires { MayFail pen.old (S.written sink.old) }
    ensures countable { MayFail pen.new (S.written sink.new) }
    ensures text { Adds (S.written sink.old) pen.old (S.written sink.new) pen.new (instr_text instr) }
{
    match instr {
        Instr::Fetch(variable) => {
            pen.add(sink, b"FETCH ");
            add_variable(pen, sink, variable);
        }
        Instr::Store(variable, op) => {
            pen.add(sink, b"STORE ");
            add_variable(pen, sink, variable);
            pen.add_byte(sink, b' ');
            pen.add(sink, store_punctuator(op).as_bytes());
        }
        Instr::Const(value) => {
            pen.add(sink, b"CONST ");
            add_value(pen, sink, value);
        }
        Instr::Binop(op) => {
            pen.add(sink, b"BINOP ");
            pen.add(sink, operator_punctuator(op).as_bytes());
        }
        Instr::Fcall(callee) => {
            pen.add(sink, b"FCALL ");
            add_callee(pen, sink, callee);
        }
        Instr::Retsub => pen.add(sink, b"RETSUB"),
        Instr::Branch(to) => {
            pen.add(sink, b"BRANCH ");
            pen.add_number(sink, u32::from(to));
        }
        Instr::Chop => pen.add(sink, b"CHOP"),
        Instr::Frame => pen.add(sink, b"FRAME"),
        Instr::Truth => pen.add(sink, b"TRUTH"),
        Instr::Nop => pen.add(sink, b"NOP"),
    }
}

/// Adds a variable: E and its number, or L and its number.
fn add_variable<S: Sink>(pen: &mut Pen, sink: &mut S, variable: Var)
    requires { MayFail pen.old (S.written sink.old) }
    ensures countable { MayFail pen.new (S.written sink.new) }
    ensures text { Adds (S.written sink.old) pen.old (S.written sink.new) pen.new (variable_text variable) }
{
    let (letter, number) = match variable {
        Var::External(number) => (b'E', number),
        Var::Local(number) => (b'L', number),
    };
    pen.add_byte(sink, letter);
    pen.add_number(sink, u32::from(number));
}

/// Adds a constant.
fn add_value<S: Sink>(pen: &mut Pen, sink: &mut S, value: i32)
    requires { MayFail pen.old (S.written sink.old) }
    ensures countable { MayFail pen.new (S.written sink.new) }
    ensures text { Adds (S.written sink.old) pen.old (S.written sink.new) pen.new (signed_decimal value) }
{
    if value < 0 {
        pen.add_byte(sink, b'-');
    }
    pen.add_number(sink, value.unsigned_abs());
}

/// Adds a function's number, or an intrinsic's name.
fn add_callee<S: Sink>(pen: &mut Pen, sink: &mut S, callee: Callee)
    requires { MayFail pen.old (S.written sink.old) }
    ensures countable { MayFail pen.new (S.written sink.new) }
    ensures text { Adds (S.written sink.old) pen.old (S.written sink.new) pen.new (callee_text callee) }
{
    match callee {
        Callee::Function(number) => pen.add_number(sink, u32::from(number)),
        Callee::Intrinsic(intrinsic) => pen.add(sink, intrinsic.name().as_bytes()),
    }
}
