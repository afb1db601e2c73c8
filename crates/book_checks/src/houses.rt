// House books, compared with plain ones.
use crate::asks::Asks;
use crate::books::BookTally;
use crate::draws::draw_house;
use crate::plain::NONE;
use crate::readings::house_book;
use dice::Dice;
use rulebook::HouseBook;
use std::alloc::{AllocError, Global};

// Compares the book of an item count and words.
fn compare(
    heap: Global,
    tally: &mut BookTally,
    items: u32,
    words: &[u32],
    asks: &Asks,
) -> Result<(), AllocError> {
    let plain = house_book(heap, items, words)?;
    tally.compare(&HouseBook { items, words }, &plain, asks);
    Ok(())
}

// few items, the most that there may be, and too many
const COUNTS: [u32; 12] = [0, 1, 2, 3, 4, 5, 6, 7, 8, 73_728, 73_729, 4_294_967_295];

// Random words, each with every item count.
fn compare_drawn(heap: Global, tally: &mut BookTally, seed: u64) -> Result<(), AllocError> {
    let mut dice = Dice::new(seed);
    for items in COUNTS {
        let words = draw_house(heap, &mut dice, items)?;
        let asks = Asks::about(heap, &[items], &[])?;
        compare(heap, tally, items, words.as_slice(), &asks)?;
    }
    Ok(())
}

// Books of up to eight rows.
pub fn compare_small(heap: Global) -> Result<BookTally, AllocError> {
    let mut tally = BookTally::default();
    for seed in 0..600 {
        compare_drawn(heap, &mut tally, seed)?;
    }
    Ok(tally)
}

// So many rows that give no rule, then two that do, and a word more.
fn long_words(heap: Global, before: usize) -> Result<Vec<u32>, AllocError> {
    let mut words = vec![in heap; NONE; before.saturating_mul(3)]?;
    words.extend_from_slice(&[0, 1, 2, 1, NONE, 3, 0])?;
    Ok(words)
}

// Books whose last rows are about the last that counts. They are asked for few items and rows, since a plain seek
// from row 0 looks at all.
pub fn compare_long(heap: Global) -> Result<BookTally, AllocError> {
    let mut tally = BookTally::default();
    let asks = Asks {
        items: vec![in heap; 0, 1, 2, 3, 4]?,
        rows: vec![in heap; 0, 4_092, 4_093, 4_094, 4_095, 4_096, 4_097, 4_098]?,
    };
    for before in 4_092..4_098 {
        let words = long_words(heap, before)?;
        compare(heap, &mut tally, 4, words.as_slice(), &asks)?;
    }
    Ok(tally)
}
