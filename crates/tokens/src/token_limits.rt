//! The limits of tokens and of a source.

/// The most bytes of a name.
pub const MOST_NAME_BYTES: usize = 31;

/// The most bytes of a source.
pub const MOST_SOURCE_BYTES: u32 = 1_048_576;

/// The greatest value of a constant.
pub const MOST_CONSTANT_VALUE: u32 = 2_147_483_647;

/// The bytes of the window through which a source is read.
pub const WINDOW_BYTES: usize = 4096;
