//! How large the numbers of a specifier may be, and how deep it may go.

/// The largest absolute value of a numerator, or of an integer.
pub const LARGEST_NUMERATOR: u128 = 1 << 64;

/// The largest denominator.
pub const LARGEST_DENOMINATOR: u128 = 1 << 60;

/// The largest rank of an array that is asked for.
pub const LARGEST_RANK: usize = 255;

/// What a dimension that is asked for stays below.
pub const DIMENSION_LIMIT: u64 = 1 << 62;

/// The largest depth.
pub const LARGEST_DEPTH: u64 = 1024;
