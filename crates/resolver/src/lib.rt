//! Lists of calls on a session, with the law of sessions; and the worked examples of all layers.

#![tactic(auto)]

mod call_lists;
mod examples;

pub use call_lists::run_calls;
pub use examples::worked_examples;
