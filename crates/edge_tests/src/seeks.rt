// What books are asked for, and what they answer.
use rulebook::{RowEntry, Rulebook, WatchEntry};
use std::process::Abort;

// The word that means none.
pub const NONE: u32 = 4_294_967_295;

// An item, a row, and what is found there.
pub type Row = (u32, u32, Option<RowEntry>);

pub(crate) fn found(row: u32, partner: Option<u32>, conclusion: u32) -> Option<RowEntry> {
    let entry = WatchEntry {
        partner,
        conclusion,
    };
    Some(RowEntry { row, entry })
}

pub(crate) fn check_counts<B: Rulebook>(rt: &impl Abort, book: &B, items: u32, rows: u32) {
    assert_eq!(rt; book.items(), items);
    assert_eq!(rt; book.rows(), rows);
}

pub(crate) fn check_seeks<B: Rulebook>(rt: &impl Abort, book: &B, table: &[Row]) {
    for (item, row, outcome) in table {
        assert_eq!(rt;
            book.seek(*item, *row),
            *outcome,
            "item {item} from row {row}"
        );
    }
}
