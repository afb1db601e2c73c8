//! Graph files: opening one, and its rule rows.

#![tactic(auto)]

mod contents;
mod declarations;
mod directory;
mod examples;
mod faults;
mod filled;
mod graph_words;
mod index;
mod items;
mod limits;
mod lookup;
mod named;
mod namesakes;
mod opening;
mod places;
mod reading;
mod references;
mod refusal_numbers;
mod row_writers;
mod rows;
mod rules;
mod second;
mod sources;
mod tables;

pub use examples::{EXAMPLE, open_example};
pub use faults::{FileFault, InRecord};
pub use graph_words::GraphWords;
pub use items::{Item, LocalItem};
pub use limits::{MAX_BYTES, MAX_DEPENDENCIES, MAX_FEATURES, MAX_PACKAGES, MAX_RULE_ROWS};
pub use opening::open_graph;
pub use rows::{ItemRule, NoRow, Opened, Row, with_of};
