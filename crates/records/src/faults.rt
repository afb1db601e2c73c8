// Why a record is refused.
ghost use Rattle.std.specs.Prelude.{◌≡◌};
ghost use Rattle.records.specs.declared.faults.RecordFault.TheVariants.{Text};

use std::error::Error;
use std::fmt;
use text::StringFault;

/// The fault of a string in a record.
#[derive(Clone, Copy, PartialEq, Eq, Debug)]
pub struct InField {
    /// the place in the record of the string's first byte
    pub field: usize,
    /// what is wrong with the string
    pub fault: StringFault,
}

/// The fault of a record. Each `field` is a place in the record, in bytes from its start.
#[derive(Clone, Copy, PartialEq, Eq, Debug)]
pub enum RecordFault {
    /// The bytes end before the record does.
    Cut,
    /// A kind of record that may not stand here.
    Stray,
    /// More packages, dependencies or features than there may be.
    Many,
    /// The fields do not fill the record.
    Ragged { field: usize },
    /// A version, a switch or an edge kind out of range.
    Mark { field: usize },
    /// No name, or a feature string of no form.
    Text(InField),
    /// A feature's name for the second time in its package.
    Twice { field: usize },
    /// Nothing has this name or package number.
    Unknown { field: usize },
}

impl From<InField> for RecordFault {
    ghost from_gives = { λ x y. y ≡ Text x };

    fn from(fault: InField) -> RecordFault {
        RecordFault::Text(fault)
    }
}

impl fmt::Display for InField {
    fn fmt<W: fmt::Write>(&self, f: &mut fmt::Formatter<W>) -> fmt::Result {
        let InField { field, fault } = *self;
        write!(f, "{fault} of the string at byte {field}")
    }
}

impl Error for InField {}

impl fmt::Display for RecordFault {
    fn fmt<W: fmt::Write>(&self, f: &mut fmt::Formatter<W>) -> fmt::Result {
        match *self {
            RecordFault::Cut => write!(f, "the bytes end before the record does"),
            RecordFault::Stray => write!(f, "a kind of record that may not stand here"),
            RecordFault::Many => write!(f, "too many packages, dependencies or features"),
            RecordFault::Ragged { field } => write!(
                f,
                "the fields do not fill the record: byte {field}"
            ),
            RecordFault::Mark { field } => write!(
                f,
                "a version, switch or edge kind out of range: byte {field}"
            ),
            RecordFault::Text(text) => write!(f, "{text}"),
            RecordFault::Twice { field } => write!(
                f,
                "a second feature of this name: byte {field}"
            ),
            RecordFault::Unknown { field } => write!(
                f,
                "no such name or package number: byte {field}"
            ),
        }
    }
}

impl Error for RecordFault {}
