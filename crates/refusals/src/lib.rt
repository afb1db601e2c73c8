//! What a refused call tells: a number from the table of refusals, a record, and three places.

#![tactic(auto)]

ghost use Rattle.std.specs.Prelude.{◌≡◌};
ghost use Rattle.refusals.specs.Refusals.{about_no_record, byte};

use std::error::Error;
use std::fmt;

/// What a refused call tells: its number, and where a file is at fault. All places are counted in bytes, from 0; what
/// does not apply is 0.
///
/// It prints as `refused N record R byte B`.
#[derive(Clone, Copy, PartialEq, Eq, Debug)]
pub struct Refusal {
    /// the number in the table of refusals
    pub number: u32,
    /// the number of the record at fault, from 0
    pub record_number: usize,
    /// the place in the file where that record starts
    pub start: usize,
    /// the place in the record where the field at fault starts
    pub field: usize,
    /// the place in a string
    pub prefix: usize,
}

impl Refusal {
    /// A refusal that is about no record of a file.
    pub fn about_no_record(number: u32) -> Refusal
        ensures { result ≡ about_no_record number }
    {
        Refusal {
            number,
            record_number: 0,
            start: 0,
            field: 0,
            prefix: 0,
        }
    }

    /// The place in the file: the sum of the three places, or the largest `usize` if that is beyond it.
    pub fn byte(&self) -> usize
        ensures { result ≡ byte self.now }
    {
        self.start
            .saturating_add(self.field)
            .saturating_add(self.prefix)
    }
}

impl fmt::Display for Refusal {
    fn fmt<W: fmt::Write>(&self, f: &mut fmt::Formatter<W>) -> fmt::Result {
        let Refusal {
            number,
            record_number,
            ..
        } = *self;
        let byte = self.byte();
        write!(f, "refused {number} record {record_number} byte {byte}")
    }
}

impl Error for Refusal {}
