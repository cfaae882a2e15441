//! The version of the programs.

/// The version, as the file `VERSION` at the top has it.
pub const VERSION: &str = "0.1.0";
