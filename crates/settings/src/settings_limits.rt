//! The limits of what a run may be asked to do, and what it does when it isn't asked.

/// The most matches of a series; there is at least one.
pub const MOST_MATCHES: u32 = 1_000_000;

/// The number of matches if none is asked for.
pub const MATCHES_DEFAULT: u32 = 1;

/// The most cycles of a match; there is at least one.
pub const MOST_CYCLES: u32 = 1_000_000_000;

/// The most cycles of a match if none are asked for.
pub const CYCLES_DEFAULT: u32 = 500_000;

/// The seed if none is asked for.
pub const SEED_DEFAULT: u64 = 1;

/// The number of the language profile if none is asked for.
pub const PROFILE_DEFAULT: u32 = 1;

/// The greatest number that a series' first match may have; the least is 1.
pub const MOST_FIRST_MATCH: u32 = 1_000_000;

/// The number of the first match if none is asked for.
pub const FIRST_DEFAULT: u32 = 1;

/// The most files of a run; there is at least one.
pub const MOST_FILES: usize = 4;
