//! What programs in other languages call: opening a graph file, and settling what items of it are requested.

#![tactic(auto)]

mod opening;
mod settling;
