//! Tests of `parse` through the public calls of `lang`: pieces of many sizes, devices that fail, builders that refuse,
//! and the trees of whole files; of `tokens` and of `derivations`.
//!
//! They are a crate of their own: so none of these is proved once more with them.
#![tactic(auto)]

#[cfg(test)]
mod tests;
