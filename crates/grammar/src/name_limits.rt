//! The limits of names and of nesting.

/// The most externals, the most variables of a function, and the most functions.
pub const MOST_NAMES: usize = 64;

/// The most constructs that may be nested in one another.
pub const MOST_NESTED: u8 = 64;
