//! A program's code with its names, as an object of JSON on a line.

use crate::robots::Robot;
use grammar::{FunctionNames, Name};
use std::alloc::AllocError;
use tools::{Array, Draft, Object, Text};

/// Adds the code of the robot of a file: its externals, its functions with their variables, and its instructions, each with
/// its function, its line and the name that it speaks of.
pub fn add_code_object(text: &mut String, file: &str, robot: &Robot) -> Result<(), AllocError> {
    let mut draft = Draft::new(*text.allocator());
    let mut object = Object::begin(&mut draft);
    object.words("file", file);
    add_names(object.field("externals"), robot.names.externals());
    add_functions(object.field("functions"), robot);
    add_instructions(object.field("code"), robot)?;
    object.end();
    draft.add("\n");
    draft.move_behind(text)
}

/// Adds an array of names.
fn add_names(text: &mut Draft, names: &[Name]) {
    let mut array = Array::begin(text);
    for name in names {
        add_string(array.item(), name.as_str());
    }
    array.end();
}

/// Adds an array of the functions, in the order of their numbers.
fn add_functions(text: &mut Draft, robot: &Robot) {
    let mut array = Array::begin(text);
    for (function, begin) in robot
        .names
        .functions()
        .iter()
        .zip(robot.program.addresses())
    {
        add_function(array.item(), function, *begin);
    }
    array.end();
}

/// Adds a function that begins at an address.
fn add_function(text: &mut Draft, function: &FunctionNames, begin: u16) {
    let mut object = Object::begin(text);
    object.words("name", function.name().as_str());
    object.number("begin", u64::from(begin));
    add_names(object.field("variables"), function.variables());
    object.end();
}

/// Adds an array of the instructions, in the order of their addresses.
fn add_instructions(text: &mut Draft, robot: &Robot) -> Result<(), AllocError> {
    let mut array = Array::begin(text);
    for address in 0..robot.program.instructions().len() {
        add_instruction(array.item(), robot, address)?;
    }
    array.end();
    Ok(())
}

/// Adds the instruction of an address.
fn add_instruction(text: &mut Draft, robot: &Robot, address: usize) -> Result<(), AllocError> {
    let instruction = robot.instruction(text.alloc(), address)?;
    let mut object = Object::begin(text);
    object.number("address", address as u64);
    object.number("function", robot.named().function(address) as u64);
    object.number("line", robot.origins.line(address) as u64);
    object.words("instruction", instruction.as_str());
    match robot.named().name_in(address) {
        Some(name) => object.words("name", name),
        None => object.field("name").add("null"),
    }
    object.end();
    Ok(())
}

/// Adds a name as a string.
fn add_string(text: &mut Draft, name: &str) {
    text.push('"');
    text.add(name);
    text.push('"');
}
