//! Records: what a graph file is made of, and the reading of their fields.

#![tactic(auto)]

mod bodies;
mod faults;
mod frames;
mod from_piece;
mod reader;
mod strings;
mod version;

pub use bodies::{Dependency, Feature, Package};
pub use faults::{InField, RecordFault};
pub use frames::{Frame, Kind, first_frame};
pub use reader::Reader;
pub use strings::Strings;
