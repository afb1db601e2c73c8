// Many strings, each read by the library and by the second computation.
use crate::second;
use std::alloc::{AllocError, Global};
use tally::Tally;
use text::{read_feature_string, read_name};

// Compares what is answered of a text as a feature string and as a name.
fn compare(heap: Global, tally: &mut Tally, text: &[u8]) -> Result<(), AllocError> {
    tally.note(read_feature_string(text) == second::of_string(heap, text)?);
    tally.note(read_name(text) == second::of_name(text));
    Ok(())
}

// letters of `dep`, another one, a byte inside a name, the three separators, and a byte of no string
const BYTES: [u8; 9] = *b"depa-:/?\xE9";

// The string whose digits in base 9, the lowest first, are those of `n`.
fn spelled(heap: Global, n: u32, len: u8) -> Result<Vec<u8>, AllocError> {
    let mut text = Vec::new(heap);
    let mut rest = n;
    for _ in 0..len {
        text.push(BYTES[(rest % 9) as usize])?;
        rest /= 9;
    }
    Ok(text)
}

// Every string of so many of the bytes.
fn compare_len(heap: Global, tally: &mut Tally, len: u8) -> Result<(), AllocError> {
    for n in 0..9u32.saturating_pow(u32::from(len)) {
        let text = spelled(heap, n, len)?;
        compare(heap, tally, text.as_slice())?;
    }
    Ok(())
}

// Every string of up to five of the bytes.
pub fn compare_short(heap: Global) -> Result<Tally, AllocError> {
    let mut tally = Tally::default();
    for len in 0..=5 {
        compare_len(heap, &mut tally, len)?;
    }
    Ok(tally)
}

const LENGTHS: [usize; 5] = [0, 1, 63, 64, 65];

// What stands between two names, and what may not.
const MIDDLES: [&[u8]; 5] = [b"/", b"?/", b"?", b":", b"/dep:"];

// Two names, the first of that length, with something between them.
fn compare_first(
    heap: Global,
    tally: &mut Tally,
    first: usize,
    middle: &[u8],
) -> Result<(), AllocError> {
    for second in LENGTHS {
        let before = vec![in heap; b'x'; first]?;
        let after = vec![in heap; b'y'; second]?;
        let text = [before.as_slice(), middle, after.as_slice()].concat(heap)?;
        compare(heap, tally, text.as_slice())?;
    }
    Ok(())
}

fn compare_middle(heap: Global, tally: &mut Tally, middle: &[u8]) -> Result<(), AllocError> {
    for first in LENGTHS {
        compare_first(heap, tally, first, middle)?;
    }
    Ok(())
}

// Names about as long as they may be, alone and joined.
pub fn compare_long(heap: Global) -> Result<Tally, AllocError> {
    let mut tally = Tally::default();
    for middle in MIDDLES {
        compare_middle(heap, &mut tally, middle)?;
    }
    Ok(tally)
}
