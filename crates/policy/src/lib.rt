//! Separation policies: on which side a dependency's end is to be built.

#![tactic(auto)]

mod answers;
mod dev_cut;
mod host_split;
mod policy_table;
mod unified;

pub use answers::{Policy, answer};
pub use dev_cut::DevCut;
pub use host_split::HostSplit;
pub use policy_table::PolicyTable;
pub use unified::Unified;
