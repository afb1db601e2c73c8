// Counts of what books answer.
use crate::asks::Asks;
use crate::plain::{PlainBook, Watch};
use rulebook::Rulebook;
use std::fmt;
use tally::Tally;

// Books that were compared: their answers, and how many of these are a watch entry.
#[derive(Default, Drop)]
pub struct BookTally {
    pub answers: Tally,
    found: u64,
}

impl fmt::Display for BookTally {
    fn fmt<W: fmt::Write>(&self, f: &mut fmt::Formatter<W>) -> fmt::Result {
        let BookTally { answers, found } = self;
        write!(f, "{answers}, {found} of them a watch entry")
    }
}

// What a book answers of an item and a row.
fn sought<B: Rulebook>(book: &B, item: u32, row: u32) -> Option<Watch> {
    let found = book.seek(item, row)?;
    Some(Watch {
        item: u64::from(item),
        row: u64::from(found.row),
        partner: found.entry.partner.map(u64::from),
        conclusion: u64::from(found.entry.conclusion),
    })
}

impl BookTally {
    fn compare_item<B: Rulebook>(&mut self, book: &B, plain: &PlainBook, item: u32, rows: &[u32]) {
        for row in rows {
            let first = plain.first(item, *row);
            self.answers.note(sought(book, item, *row) == first);
            self.found = self.found.saturating_add(u64::from(first.is_some()));
        }
    }

    // Compares both counts, and what is sought for each of the items at each of the rows.
    pub fn compare<B: Rulebook>(&mut self, book: &B, plain: &PlainBook, asks: &Asks) {
        self.answers.note(u64::from(book.items()) == plain.items);
        self.answers.note(u64::from(book.rows()) == plain.rows);
        for item in asks.items.as_slice() {
            self.compare_item(book, plain, *item, asks.rows.as_slice());
        }
    }
}
