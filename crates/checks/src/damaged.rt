// Copies of the example with a byte changed, cut short, or with its records in another order.
use crate::compared::FileTally;
use crate::example::{ALL, joined, put};
use graph::EXAMPLE;
use std::alloc::{AllocError, Global};

// The byte at a place changed to each of a few others.
fn compare_place(
    heap: Global,
    tally: &mut FileTally,
    at: usize,
    byte: u8,
) -> Result<(), AllocError> {
    let next = byte.wrapping_add(1);
    let last = byte.wrapping_sub(1);
    for other in [0, 1, 2, b'/', b':', 0xFF, next, last] {
        let mut file = EXAMPLE;
        put(&mut file, at, other);
        tally.compare(heap, &file)?;
    }
    Ok(())
}

// Every byte changed.
pub fn compare_bytes(heap: Global) -> Result<FileTally, AllocError> {
    let mut tally = FileTally::default();
    let file = EXAMPLE;
    for (at, byte) in file.iter().enumerate() {
        compare_place(heap, &mut tally, at, *byte)?;
    }
    Ok(tally)
}

// The file cut short after each byte, and whole with other bytes behind it.
pub fn compare_cuts(heap: Global) -> Result<FileTally, AllocError> {
    let mut tally = FileTally::default();
    let mut file = Vec::from_slice(heap, &EXAMPLE)?;
    file.extend_from_slice(b"\xFF\x00\x01")?;
    for len in 0..=file.len() {
        tally.compare(heap, &file.as_slice()[..len])?;
    }
    Ok(tally)
}

// The numbers of all records but one.
fn without(heap: Global, left_out: usize) -> Result<Vec<usize>, AllocError> {
    let mut order = Vec::new(heap);
    for number in ALL {
        if number != left_out {
            order.push(number)?;
        }
    }
    Ok(order)
}

// The records in that order, and one more put before each of them, and at the end; with one record left out, at the end
// twice.
fn compare_more(
    heap: Global,
    tally: &mut FileTally,
    order: &[usize],
    more: usize,
) -> Result<(), AllocError> {
    for at in 0..=ALL.len() {
        let (before, after) = order.split_at(at.min(order.len()));
        let numbers = [before, &[more], after].concat(heap)?;
        let file = joined(heap, numbers.as_slice())?;
        tally.compare(heap, file.as_slice())?;
    }
    Ok(())
}

// Each record left out, moved to each place, and written once more at each place.
pub fn compare_records(heap: Global) -> Result<FileTally, AllocError> {
    let mut tally = FileTally::default();
    for number in ALL {
        let others = without(heap, number)?;
        let file = joined(heap, others.as_slice())?;
        tally.compare(heap, file.as_slice())?;
        compare_more(heap, &mut tally, others.as_slice(), number)?;
        compare_more(heap, &mut tally, &ALL, number)?;
    }
    Ok(tally)
}

// A record exchanged with itself and each later one.
fn compare_exchanged(heap: Global, tally: &mut FileTally, number: usize) -> Result<(), AllocError> {
    for other in number..ALL.len() {
        let mut order = ALL;
        if number < ALL.len() {
            order.swap(number, other);
        }
        let file = joined(heap, &order)?;
        tally.compare(heap, file.as_slice())?;
    }
    Ok(())
}

// Every two records exchanged.
pub fn compare_exchanges(heap: Global) -> Result<FileTally, AllocError> {
    let mut tally = FileTally::default();
    for number in ALL {
        compare_exchanged(heap, &mut tally, number)?;
    }
    Ok(tally)
}
