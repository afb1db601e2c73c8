//! Sessions: what requests make active by the rules of a rulebook, and why.

#![tactic(auto)]

mod calls;
mod session;
mod trail;

pub use calls::{Answer, Call, Outcome, Reason, SessionFault};
pub use session::Session;
pub use trail::{TrailRecord, UNUSED};
