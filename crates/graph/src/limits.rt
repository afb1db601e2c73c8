// The limits of a graph file.

/// The most bytes of a file.
pub const MAX_BYTES: usize = 1_048_576;

/// The most packages of a graph.
pub const MAX_PACKAGES: usize = 4_096;

/// The most dependencies of a graph.
pub const MAX_DEPENDENCIES: usize = 16_384;

/// The most features of a graph.
pub const MAX_FEATURES: usize = 16_384;

/// The most rule rows of a graph.
pub const MAX_RULE_ROWS: u32 = 262_144;

// The most dependencies and features together.
pub(crate) const MAX_DECLARATIONS: usize = 32_768;
