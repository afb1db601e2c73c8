// Mistakes that are easily made in a graph book, to see that the comparison would find them.
use crate::asks::Asks;
use crate::books::BookTally;
use crate::draws::draw_graph;
use crate::readings::{Manner, graph_book};
use crate::sheets::{HOST_LEAKS, HOST_SPLIT, HOST_SPLIT_NO_DEV, Sheet};
use dice::Dice;
use policy::{DevCut, HostSplit, Policy};
use rulebook::GraphBook;
use std::alloc::{AllocError, Global};
use std::fmt;

// How many mistakes were tried, and how many of them are told apart from the library.
#[derive(Default, Drop)]
pub struct Trials {
    tried: u64,
    told_apart: u64,
}

impl fmt::Display for Trials {
    fn fmt<W: fmt::Write>(&self, f: &mut fmt::Formatter<W>) -> fmt::Result {
        let Trials { tried, told_apart } = self;
        write!(f, "{tried} tried, {told_apart} told apart")
    }
}

impl Trials {
    // Compares the library's books with plain ones in which a mistake is made.
    fn try_one<P: Policy>(
        &mut self,
        heap: Global,
        policy: &P,
        sheet: &Sheet,
        manner: Manner,
    ) -> Result<(), AllocError> {
        let asks = Asks::about(heap, &[], &[])?;
        let mut tally = BookTally::default();
        for seed in 0..50 {
            let words = draw_graph(heap, &mut Dice::new(seed))?;
            let plain = graph_book(heap, words.as_slice(), sheet, manner)?;
            tally.compare(&GraphBook::new(words.as_slice(), policy), &plain, &asks);
        }
        self.tried = self.tried.saturating_add(1);
        let found = u64::from(tally.answers.differ > 0);
        self.told_apart = self.told_apart.saturating_add(found);
        Ok(())
    }
}

// Each of the mistakes; the first is in a policy.
pub fn try_all(heap: Global) -> Result<Trials, AllocError> {
    let mut trials = Trials::default();
    trials.try_one(heap, &HostSplit, &HOST_LEAKS, Manner::Right)?;
    let no_dev = DevCut { below: HostSplit };
    for manner in [
        Manner::WithUnwatched,
        Manner::Swapped,
        Manner::CrossIgnored,
        Manner::CutStays,
        Manner::NoLaneToTarget,
    ] {
        trials.try_one(heap, &no_dev, &HOST_SPLIT_NO_DEV, manner)?;
    }
    trials.try_one(heap, &no_dev, &HOST_SPLIT, Manner::Right)?;
    Ok(trials)
}
