// Graph books, compared under each policy.
use crate::asks::Asks;
use crate::books::BookTally;
use crate::draws::{draw_damaged, draw_graph};
use crate::plain::NONE;
use crate::readings::{Manner, graph_book};
use crate::sheets::{HOST_SPLIT, HOST_SPLIT_NO_DEV, Sheet, UNIFIED, UNIFIED_NO_DEV};
use dice::Dice;
use policy::{DevCut, HostSplit, Policy, Unified};
use rulebook::GraphBook;
use std::alloc::{AllocError, Global};

// Words, with what their books are asked for.
#[derive(Drop)]
struct Case {
    words: Vec<u32>,
    asks: Asks,
}

impl Case {
    fn compare<P: Policy>(
        &self,
        heap: Global,
        tally: &mut BookTally,
        policy: &P,
        sheet: &Sheet,
    ) -> Result<(), AllocError> {
        let words = self.words.as_slice();
        let plain = graph_book(heap, words, sheet, Manner::Right)?;
        tally.compare(&GraphBook::new(words, policy), &plain, &self.asks);
        Ok(())
    }

    // Under each policy.
    fn compare_all(&self, heap: Global, tally: &mut BookTally) -> Result<(), AllocError> {
        let unified_no_dev = DevCut { below: Unified };
        let split_no_dev = DevCut { below: HostSplit };
        let twice = DevCut {
            below: split_no_dev,
        };
        self.compare(heap, tally, &Unified, &UNIFIED)?;
        self.compare(heap, tally, &HostSplit, &HOST_SPLIT)?;
        self.compare(heap, tally, &unified_no_dev, &UNIFIED_NO_DEV)?;
        self.compare(heap, tally, &split_no_dev, &HOST_SPLIT_NO_DEV)?;
        self.compare(heap, tally, &twice, &HOST_SPLIT_NO_DEV)
    }

    // Words that are asked for about the item counts that they say, whether they have them or not.
    fn of(heap: Global, words: Vec<u32>, rows: &[u32]) -> Result<Case, AllocError> {
        let local = words
            .iter()
            .take(3)
            .fold(0u32, |sum, count| sum.saturating_add(*count));
        let asks = Asks::about(heap, &[local, local.saturating_mul(2)], rows)?;
        Ok(Case { words, asks })
    }
}

// Random graphs.
pub fn compare_lawful(heap: Global) -> Result<BookTally, AllocError> {
    let mut tally = BookTally::default();
    for seed in 0..2_000 {
        let words = draw_graph(heap, &mut Dice::new(seed))?;
        Case::of(heap, words, &[])?.compare_all(heap, &mut tally)?;
    }
    Ok(tally)
}

// Random graphs that are damaged.
pub fn compare_damaged(heap: Global) -> Result<BookTally, AllocError> {
    let mut tally = BookTally::default();
    for seed in 0..6_000 {
        let words = draw_damaged(heap, &mut Dice::new(seed))?;
        Case::of(heap, words, &[])?.compare_all(heap, &mut tally)?;
    }
    Ok(tally)
}

// Counts at their limits, or one of them past it.
const COUNTS: [[u32; 3]; 4] = [
    [4_096, 16_384, 16_384],
    [4_097, 16_384, 16_384],
    [4_096, 16_385, 16_384],
    [4_096, 16_384, 16_385],
];

// Words with these counts and so many rows, of which all but the last two give no rule: these have the last item
// of all as from and to, and one of them as with.
fn words_of(heap: Global, counts: [u32; 3], rows: u32) -> Result<Vec<u32>, AllocError> {
    let [packages, dependencies, features] = counts;
    let last = packages
        .saturating_add(dependencies)
        .saturating_add(features)
        .saturating_sub(1);
    let mut words = vec![in heap; packages, dependencies, features, rows]?;
    for _ in 2..rows {
        words.extend_from_slice(&[0, NONE, 0, 7, 0])?;
    }
    words.extend_from_slice(&[last, 0, last, 1, 1])?;
    words.extend_from_slice(&[0, last, 0, 3, 0])?;
    Ok(words)
}

// Graphs with counts at their limits, or one of them past it.
pub fn compare_counts(heap: Global) -> Result<BookTally, AllocError> {
    let mut tally = BookTally::default();
    for counts in COUNTS {
        let words = words_of(heap, counts, 3)?;
        Case::of(heap, words, &[])?.compare_all(heap, &mut tally)?;
    }
    Ok(tally)
}

// Graphs with as many rows as there may be, and with one more. They are asked for few items and rows, since a plain
// seek from row 0 looks at all.
pub fn compare_rows(heap: Global) -> Result<BookTally, AllocError> {
    let mut tally = BookTally::default();
    for rows in [262_144, 262_145] {
        let case = Case {
            words: words_of(heap, [1, 1, 0], rows)?,
            asks: Asks {
                items: vec![in heap; 0, 1, 2, 3, 4]?,
                rows: vec![in heap; 0, 262_141, 262_142, 262_143, 262_144, 262_145]?,
            },
        };
        case.compare(heap, &mut tally, &HostSplit, &HOST_SPLIT)?;
    }
    Ok(tally)
}
