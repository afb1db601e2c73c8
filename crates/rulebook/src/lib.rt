//! Rulebooks: tables of watch entries, and the two books that words make.

#![tactic(auto)]

mod book;
mod entries;
mod graph_book;
mod house_book;
mod limits;
mod rule_rows;
mod side_rows;

pub use book::Rulebook;
pub use entries::{RowEntry, WatchEntry};
pub use graph_book::GraphBook;
pub use house_book::HouseBook;
pub use limits::MAX_ITEMS;
