// The worked example of the pages: what the second resolver makes of it, compared with what is written there.
use crate::decode::decode;
use crate::graphs::Graph;
use crate::scripts::Expected;
use crate::separation::{Manner, SPLIT, Separation, UNIFIED};
use graph::EXAMPLE;
use std::alloc::{AllocError, Global};
use tally::Tally;

const REQUESTED: [usize; 2] = [0, 6];

// What is active then, in item numbers, and the steps.
const UNDER_SPLIT: (&[usize], u64) = (&[0, 6, 4, 7, 12, 3, 8, 15, 1, 11, 19, 18], 11);

const UNDER_UNIFIED: (&[usize], u64) = (&[0, 6, 4, 7, 2, 3, 8, 5, 1, 9], 11);

// Compares each item and the steps under a separation.
fn note_example(
    heap: Global,
    tally: &mut Tally,
    graph: &Graph,
    separation: Separation,
    (active, steps): (&[usize], u64),
) -> Result<(), AllocError> {
    let items = graph.items(heap)?;
    let mut requested = Vec::new(heap);
    requested.extend(
        REQUESTED
            .iter()
            .filter_map(|number| items.get(*number).copied()),
    )?;
    let manner = Manner::right(separation);
    let expected = Expected::of(heap, graph, manner, requested.as_slice())?;
    tally.note(expected.steps == steps);
    tally.note(items.len() == 20);
    for (number, item) in items.iter().enumerate() {
        tally.note(expected.on.contains(item) == active.contains(&number));
    }
    Ok(())
}

// Under host-split and unified.
pub fn compare_example(heap: Global) -> anyhow::Result<Tally> {
    let graph = Graph::number(heap, decode(heap, &EXAMPLE)?.as_slice())?;
    let mut tally = Tally::default();
    note_example(heap, &mut tally, &graph, SPLIT, UNDER_SPLIT)?;
    note_example(heap, &mut tally, &graph, UNIFIED, UNDER_UNIFIED)?;
    Ok(tally)
}
