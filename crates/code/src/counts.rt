//! How many variables the functions of a program have.

/// How many parameters a function has, and how many variables with them.
#[derive(Clone, Copy, Default, PartialEq, Eq)]
pub struct FunctionCounts {
    /// Its parameters.
    pub parameters: u8,
    /// Its parameters and its locals.
    pub variables: u8,
}
