// Books as plain lists of what their items watch.
use std::alloc::{AllocError, Global};

// The word that means none.
pub const NONE: u32 = 4_294_967_295;

// A rule, in item numbers of a book.
#[derive(Clone, Copy)]
pub struct Rule {
    pub from: u64,
    pub with: Option<u64>,
    pub to: u64,
}

// What an item watches at a row.
#[derive(Clone, Copy, PartialEq, Eq)]
pub struct Watch {
    pub item: u64,
    pub row: u64,
    pub partner: Option<u64>,
    pub conclusion: u64,
}

// The counts of a book, and the watches of all items; those of one item are in row order.
#[derive(Drop)]
pub struct PlainBook {
    pub items: u64,
    pub rows: u64,
    watches: Vec<Watch>,
}

impl PlainBook {
    pub fn new(heap: Global, items: u64, rows: u64) -> PlainBook {
        PlainBook {
            items,
            rows,
            watches: Vec::new(heap),
        }
    }

    // Adds what `from` watches, and unless it is the same item what `with` does.
    pub fn add(&mut self, row: u64, rule: Rule) -> Result<(), AllocError> {
        let Rule { from, with, to } = rule;
        self.add_from(row, rule)?;
        match with {
            Some(with) if with != from => {
                let watch = Watch {
                    item: with,
                    row,
                    partner: Some(from),
                    conclusion: to,
                };
                Ok(self.watches.push(watch)?)
            }
            _ => Ok(()),
        }
    }

    // Adds only what `from` watches.
    pub fn add_from(&mut self, row: u64, rule: Rule) -> Result<(), AllocError> {
        let watch = Watch {
            item: rule.from,
            row,
            partner: rule.with,
            conclusion: rule.to,
        };
        Ok(self.watches.push(watch)?)
    }

    // The first watch of an item at or after a row.
    pub fn first(&self, item: u32, row: u32) -> Option<Watch> {
        self.watches
            .iter()
            .find(|watch| watch.item == u64::from(item) && watch.row >= u64::from(row))
            .copied()
    }
}
