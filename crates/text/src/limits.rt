/// The most bytes that a name has.
pub const MAX_NAME_BYTES: usize = 64;
