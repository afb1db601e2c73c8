// The example of a graph file, record by record.
use graph::EXAMPLE;
use std::alloc::{AllocError, Global};

// Where its records begin, and where the last one ends.
const STARTS: [usize; 13] = [0, 8, 19, 36, 52, 70, 99, 111, 122, 136, 147, 167, 173];

// The numbers of its records.
pub const ALL: [usize; 12] = [0, 1, 2, 3, 4, 5, 6, 7, 8, 9, 10, 11];

static FILE: [u8; 173] = EXAMPLE;

fn record(number: usize) -> Option<&'static [u8]> {
    let start = STARTS.get(number)?;
    let end = STARTS.get(number.saturating_add(1))?;
    FILE.get(*start..*end)
}

// The records with these numbers, one after the other.
pub fn joined(heap: Global, numbers: &[usize]) -> Result<Vec<u8>, AllocError> {
    let mut file = Vec::new(heap);
    for number in numbers {
        if let Some(record) = record(*number) {
            file.extend_from_slice(record)?;
        }
    }
    Ok(file)
}

// Writes a byte at a place, if the file has it.
pub fn put(file: &mut [u8], at: usize, byte: u8) {
    if let Some(place) = file.get_mut(at) {
        *place = byte;
    }
}
