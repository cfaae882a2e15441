//! Tests of the program over given words, files and streams; and of the options that the other programs read with
//! `tools`.
//!
//! They are a crate of their own: so neither crate is proved once more with them.
#![tactic(auto)]

#[cfg(test)]
mod tests;
