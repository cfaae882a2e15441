//! The listing of a program, line by line.

ghost use Rattle.std.specs.Prelude.{◌≡◌, ◌+◌, ◌-◌, ◌^◌, ◌<◌, ◌≤◌, [], ◌++◌, get_or, length};
ghost use Rattle.code.specs.Generation.{Program};
ghost use Rattle.sinks.specs.Pens.{Adds, MayFail};
ghost use Rattle.sinks.specs.Puts.{CanFail, Puts};
ghost use Rattle.listings.specs.Listing.{code_lines, externals_lines, function_lines, instr_line, listing_of, name_line, numbered};

use crate::instructions::add_instruction;
use code::{Instr, MOST_INSTRUCTIONS, Program};
use grammar::{FunctionNames, MOST_NAMES, Name, Pools};
use sinks::{DeviceFault, Pen, Sink};

/// Puts the listing of a program whose file has this name, and these names of functions and variables.
pub fn put_listing<S: Sink>(
    sink: &mut S,
    name: &[u8],
    names: &Pools,
    program: &Program,
) -> Result<(), DeviceFault>
    requires { CanFail (S.written sink.old) }
    ensures { Puts result (S.written sink.old) (S.written sink.new)
        (listing_of name.now names.now program.now) }
{
    put_code(
        sink,
        name,
        names,
        program.addresses(),
        program.instructions(),
    )
}

/// Puts the listing of the program whose functions have these addresses, and which consists of these instructions.
pub fn put_code<S: Sink>(
    sink: &mut S,
    name: &[u8],
    names: &Pools,
    addresses: &[u16],
    instrs: &[Instr],
) -> Result<(), DeviceFault>
    requires few { length instrs.now ≤ MOST_INSTRUCTIONS }
    requires countable { CanFail (S.written sink.old) }
    ensures { (program : Program) → program.addresses ≡ addresses.now → program.instructions ≡ instrs.now
        → Puts result (S.written sink.old) (S.written sink.new) (listing_of name.now names.now program) }
{
    let mut pen = Pen::new();
    pen.add(sink, b"File ");
    pen.add(sink, name);
    pen.add_byte(sink, b'\n');
    add_externals(&mut pen, sink, names.externals());
    add_functions(&mut pen, sink, names.functions(), addresses);
    add_code(&mut pen, sink, instrs);
    pen.finish(sink)
}

/// Adds how many externals there are, and their names.
fn add_externals<S: Sink>(pen: &mut Pen, sink: &mut S, externals: &[Name])
    requires few { length externals.now ≤ MOST_NAMES }
    requires countable { MayFail pen.old (S.written sink.old) }
    ensures countable { MayFail pen.new (S.written sink.new) }
    ensures text { Adds (S.written sink.old) pen.old (S.written sink.new) pen.new (externals_lines externals.now) }
{
    pen.add(sink, b"Externals ");
    pen.add_number(sink, externals.len() as u32);
    pen.add_byte(sink, b'\n');
    add_names(pen, sink, externals);
}

/// Adds each function.
fn add_functions<S: Sink>(
    pen: &mut Pen,
    sink: &mut S,
    functions: &[FunctionNames],
    addresses: &[u16],
)
    requires few { length functions.now ≤ MOST_NAMES }
    requires countable { MayFail pen.old (S.written sink.old) }
    ensures countable { MayFail pen.new (S.written sink.new) }
    ensures text { Adds (S.written sink.old) pen.old (S.written sink.new) pen.new
        (numbered (function_lines addresses.now) 0 functions.now) }
{
    for (number, function) in functions.iter().enumerate() {
        add_function(pen, sink, number, function, addresses);
    }
}

/// Adds a function's line, and its variables.
fn add_function<S: Sink>(
    pen: &mut Pen,
    sink: &mut S,
    number: usize,
    function: &FunctionNames,
    addresses: &[u16],
)
    requires few { number < MOST_NAMES }
    requires countable { MayFail pen.old (S.written sink.old) }
    ensures countable { MayFail pen.new (S.written sink.new) }
    ensures text { Adds (S.written sink.old) pen.old (S.written sink.new) pen.new
        (function_lines addresses.now number function.now) }
{
    pen.add(sink, b"Function ");
    pen.add_number(sink, number as u32);
    pen.add_byte(sink, b' ');
    pen.add(sink, function.name().as_bytes());
    pen.add(sink, b" vars ");
    pen.add_number(sink, function.variables().len() as u32);
    pen.add(sink, b" at ");
    pen.add_number(sink, address_at(addresses, number));
    pen.add_byte(sink, b'\n');
    add_names(pen, sink, function.variables());
}

/// Returns the address of the function of this number, 0 if there is none.
fn address_at(addresses: &[u16], number: usize) -> u32
    ensures { result ≡ get_or addresses.now number 0 }
{
    u32::from(addresses.get(number).copied().unwrap_or(0))
}

/// Adds a line for each name.
fn add_names<S: Sink>(pen: &mut Pen, sink: &mut S, names: &[Name])
    requires few { length names.now ≤ MOST_NAMES }
    requires countable { MayFail pen.old (S.written sink.old) }
    ensures countable { MayFail pen.new (S.written sink.new) }
    ensures text { Adds (S.written sink.old) pen.old (S.written sink.new) pen.new (numbered name_line 0 names.now) }
{
    for (number, name) in names.iter().enumerate() {
        add_name(pen, sink, number as u32, name);
    }
}

/// Adds the line of a name: its number, and itself.
fn add_name<S: Sink>(pen: &mut Pen, sink: &mut S, number: u32, name: &Name)
    requires { MayFail pen.old (S.written sink.old) }
    ensures countable { MayFail pen.new (S.written sink.new) }
    ensures text { Adds (S.written sink.old) pen.old (S.written sink.new) pen.new (name_line number name.now) }
{
    pen.add(sink, b"  ");
    pen.add_number(sink, number);
    pen.add_byte(sink, b' ');
    pen.add(sink, name.as_bytes());
    pen.add_byte(sink, b'\n');
}

/// Adds how many instructions there are, and a line for each.
fn add_code<S: Sink>(pen: &mut Pen, sink: &mut S, instrs: &[Instr])
    requires few { length instrs.now ≤ MOST_INSTRUCTIONS }
    requires countable { MayFail pen.old (S.written sink.old) }
    ensures countable { MayFail pen.new (S.written sink.new) }
    ensures text { Adds (S.written sink.old) pen.old (S.written sink.new) pen.new
        (code_lines instrs.now) }
{
    pen.add(sink, b"Code ");
    pen.add_number(sink, instrs.len() as u32);
    pen.add_byte(sink, b'\n');
    add_lines(pen, sink, instrs);
}

/// Adds a line for each instruction.
fn add_lines<S: Sink>(pen: &mut Pen, sink: &mut S, instrs: &[Instr])
    requires few { length instrs.now ≤ MOST_INSTRUCTIONS }
    requires countable { MayFail pen.old (S.written sink.old) }
    ensures countable { MayFail pen.new (S.written sink.new) }
    ensures text { Adds (S.written sink.old) pen.old (S.written sink.new) pen.new
        (numbered instr_line 0 instrs.now) }
{
    for (at, instr) in instrs.iter().enumerate() {
        add_line(pen, sink, at as u32, *instr);
    }
}

/// Adds the line of an instruction at its address.
fn add_line<S: Sink>(pen: &mut Pen, sink: &mut S, at: u32, instr: Instr)
    requires { MayFail pen.old (S.written sink.old) }
    ensures countable { MayFail pen.new (S.written sink.new) }
    ensures text { Adds (S.written sink.old) pen.old (S.written sink.new) pen.new (instr_line at instr) }
{
    pen.add_column(sink, 5, at);
    pen.add_byte(sink, b' ');
    add_instruction(pen, sink, instr);
    pen.add_byte(sink, b'\n');
}
