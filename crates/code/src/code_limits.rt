//! The room for a program's code and for the machine. The profile says how much of it a program may use.

/// The most instructions of a program's code in any profile, with the NOP that ends it.
pub const MOST_INSTRUCTIONS: usize = 4000;

/// The most addresses that are open at once while code is made: 200 loops, of which each has two.
pub const MOST_OPEN: usize = 400;

/// The words of a machine's stack, in the profile that has the most.
pub const MOST_WORDS: usize = 1000;

/// The most frames that are open at once, in the profile that has the most.
pub const MOST_FRAMES: usize = 128;
