// Why the second opener stops.
use refusals::Refusal;
use std::alloc::{AllocError, AllocFailed};

#[derive(Drop)]
pub enum Stop {
    // the file is refused
    Refused(Refusal),
    // the program itself has no memory left
    Memory(AllocError),
}

impl Stop {
    // The refusal, if it is one.
    pub fn refusal(self) -> Result<Refusal, AllocError> {
        match self {
            Stop::Refused(refusal) => Ok(refusal),
            Stop::Memory(e) => Err(e),
        }
    }
}

impl From<Refusal> for Stop {
    fn from(refusal: Refusal) -> Stop {
        Stop::Refused(refusal)
    }
}

impl From<AllocError> for Stop {
    fn from(e: AllocError) -> Stop {
        Stop::Memory(e)
    }
}

impl<T: Drop> From<AllocFailed<T>> for Stop {
    fn from(e: AllocFailed<T>) -> Stop {
        Stop::Memory(e.into())
    }
}

// Why a file is refused, by the numbers of the table of refusals.
#[derive(Clone, Copy)]
pub enum Why {
    Cut = 1,
    Stray = 2,
    Ragged = 3,
    Mark = 4,
    Name = 5,
    Twice = 6,
    Unknown = 7,
    Many = 8,
    Memory = 9,
}

// The number of a record and its start in the file.
#[derive(Clone, Copy)]
pub struct Place {
    pub record: usize,
    pub start: usize,
}

impl Place {
    // that of a refusal which is about no record
    pub const NONE: Place = Place {
        record: 0,
        start: 0,
    };

    // A refusal of this record.
    pub fn refusal(self, why: Why, field: usize, prefix: usize) -> Refusal {
        let Place { record, start } = self;
        Refusal {
            number: why as u32,
            record_number: record,
            start,
            field,
            prefix,
        }
    }
}
