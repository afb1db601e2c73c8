// The limits of rulebooks.

/// The most items of a rulebook.
pub const MAX_ITEMS: u32 = 73_728;

// The most rows of a house book that count.
pub(crate) const MAX_HOUSE_ROWS: usize = 4_096;
