//! The words of the command line, read by `clap`.
#![tactic(auto)]

mod command_words;
mod commands;

pub use command_words::read_words;
pub use settings::UseFault;
