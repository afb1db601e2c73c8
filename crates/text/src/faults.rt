// Why a string is refused.
use std::error::Error;
use std::fmt;

/// Why a string is refused. `prefix` is the length in bytes of its longest prefix that begins some lawful string.
#[derive(Clone, Copy, PartialEq, Eq, Debug)]
pub enum StringFault {
    /// The bytes are no name.
    NoName { prefix: usize },
    /// The bytes are a feature string of no form.
    NoForm { prefix: usize },
}

impl fmt::Display for StringFault {
    fn fmt<W: fmt::Write>(&self, f: &mut fmt::Formatter<W>) -> fmt::Result {
        match *self {
            StringFault::NoName { prefix } => write!(f, "not a name: byte {prefix}"),
            StringFault::NoForm { prefix } => write!(f, "not a feature string: byte {prefix}"),
        }
    }
}

impl Error for StringFault {}
