//! Edge kinds, lanes and sides, each with its number: what graph files, rule rows and policies all speak of.

#![tactic(auto)]

mod edge_kinds;
mod lane_numbers;
mod sides;

pub use edge_kinds::{EdgeKind, UnknownEdgeKind};
pub use lane_numbers::{LANES, Lane, UnknownLane};
pub use sides::{SIDES, Side, UnknownSide};
