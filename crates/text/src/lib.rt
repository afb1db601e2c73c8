//! Names and feature strings: a grammar and a reader for each. All places and lengths are counted in bytes.

#![tactic(auto)]

// What a name may begin with.
macro_rules! initial {
    () => {
        'a'..='z' | 'A'..='Z' | '0'..='9' | '_'
    };
}

// What a name may go on with.
macro_rules! inner {
    () => {
        initial!() | '-' | '+' | '.'
    };
}

mod examples;
mod faults;
mod limits;
mod names;
mod pieces;
mod strings;

pub use examples::worked_examples;
pub use faults::StringFault;
pub use limits::MAX_NAME_BYTES;
pub use names::read_name;
pub use pieces::{FeatureString, Piece};
pub use strings::read_feature_string;
