//! States and proves laws on the grammar that no program needs: what is spelled with brackets and braces is parsed to
//! the tree that was spelled, names are numbered by the rules on names, productions are those of the plain grammar and
//! end each nested one that they begin, and derivations emit the actions of the functions that they define. Beside them
//! known sources are worked out from the definitions.
#![tactic(auto)]

pub mod known;
pub mod laws;
