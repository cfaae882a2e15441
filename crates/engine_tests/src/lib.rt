//! Tests of operations and engines over whole sources: which sources are translated, and which side asks.
//!
//! They are a crate of their own: so neither is `engine` proved once more with them, nor is `operations`.
#![tactic(auto)]

#[cfg(test)]
mod tests;
