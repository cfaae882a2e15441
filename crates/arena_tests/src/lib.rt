//! Tests of the field: known outcomes, and random updates against a plain model; and of its numbers, those of `arith`.
//!
//! They are a crate of their own: so neither crate is proved once more with them.
#![tactic(auto)]

#[cfg(test)]
mod tests;
