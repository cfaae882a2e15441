//! Variables by their names.

use grammar::{FunctionNames, Name, Pools};
use std::alloc::{AllocError, Global};

/// A variable that a name stands for.
#[derive(Clone, Copy, Debug)]
pub enum Variable {
    /// The external of this number.
    External(u8),
    /// Of the function of the first number, the variable of the second.
    Local(usize, u8),
}

/// Returns the variables that a word names: `FUNCTION.NAME` is one of a function. `NAME` is an external, or, if there is
/// none, the variable of each function that has one of this name.
pub fn variables_named(
    alloc: Global,
    names: &Pools,
    word: &str,
) -> Result<Vec<Variable>, AllocError> {
    match word.split_once('.') {
        Some((function, name)) => locals(alloc, names, Some(function), name),
        None => match number_of(names.externals(), word) {
            Some(number) => Ok(vec![in alloc; Variable::External(number)]?),
            None => locals(alloc, names, None, word),
        },
    }
}

/// Returns the variables of a name of the function of a name, or of each function if none is given.
fn locals(
    alloc: Global,
    names: &Pools,
    function: Option<&str>,
    name: &str,
) -> Result<Vec<Variable>, AllocError> {
    let mut found = Vec::new(alloc);
    for (number, names) in names.functions().iter().enumerate() {
        if is_called(names, function)
            && let Some(variable) = number_of(names.variables(), name)
        {
            found.push(Variable::Local(number, variable))?;
        }
    }
    Ok(found)
}

/// Reports whether a function has a name, if one is given.
fn is_called(function: &FunctionNames, name: Option<&str>) -> bool {
    match name {
        Some(name) => function.name().has_bytes(name.as_bytes()),
        None => true,
    }
}

/// Returns the number of a name among some.
fn number_of(names: &[Name], word: &str) -> Option<u8> {
    for (number, name) in names.iter().enumerate() {
        if name.has_bytes(word.as_bytes()) {
            return u8::try_from(number).ok();
        }
    }
    None
}
