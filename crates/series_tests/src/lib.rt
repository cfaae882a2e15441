//! Tests of whole listings, diagnostics and matches, through the public calls of `series`; of `sinks`; and known
//! battles, worked out from the definitions.
//!
//! They are a crate of their own: so neither crate is proved once more with them, and matches don't wait for them.
#![tactic(auto)]

pub mod known;
#[cfg(test)]
mod tests;
