//! The tests, by what they try: builders, devices, large files, limits, refused memory, pieces and trees; tokens; and
//! the positions of instructions.

mod builder_tests;
mod checks;
mod derivation_tests;
mod device_tests;
mod large_tests;
mod limit_tests;
mod memory_tests;
mod piece_tests;
mod place_tests;
mod recorder;
mod refuser;
mod sources;
mod token_tests;
mod tree_tests;
