// Random graphs and requests, each read by the library and by the second resolver.
use crate::decode::decode;
use crate::draws::draw_graph;
use crate::encode::encode;
use crate::graphs::Graph;
use crate::items::Item;
use crate::ours::{OurGraph, open_file};
use crate::scripts::{Expected, Pace, Requests};
use crate::separation::Manner;
use crate::sketches::Sketch;
use dice::Dice;
use std::alloc::{AllocError, Global};

// A graph, opened by the library and by the second resolver, and what is requested.
#[derive(Drop)]
pub struct Case {
    pub ours: OurGraph,
    pub graph: Graph,
    pub items: Vec<Item>,
    first: Vec<u32>,
    second: Vec<u32>,
    // the second request, and the number after the last item
    refused: Vec<u32>,
    pub paces: [Pace; 3],
}

// What the first request turns on, and what both do.
#[derive(Drop)]
pub struct Prospect {
    pub first: Expected,
    pub both: Expected,
}

// Adds a few items, any of those below the count.
fn add_any(dice: &mut Dice, count: usize, request: &mut Vec<u32>) -> Result<(), AllocError> {
    for _ in 0..dice.below(4) {
        let any = dice.below(count.max(1));
        if any < count {
            request.extend(u32::try_from(any).ok())?;
        }
    }
    Ok(())
}

// A few items of a graph: often its first unit and its first feature, both on the target, and any.
fn draw_request(
    heap: Global,
    dice: &mut Dice,
    graph: &Graph,
    count: usize,
) -> Result<Vec<u32>, AllocError> {
    let mut request = Vec::new(heap);
    let feature = graph
        .packages
        .len()
        .saturating_add(graph.dependencies.len());
    for likely in [0, feature] {
        if dice.coin() && likely < count {
            request.extend(u32::try_from(likely).ok())?;
        }
    }
    add_any(dice, count, &mut request)?;
    Ok(request)
}

fn draw_paces(dice: &mut Dice) -> [Pace; 3] {
    let budget = dice.below(6) as u32;
    [
        Pace::AtOnce,
        Pace::Slowly { budget: budget + 1 },
        Pace::Broken { budget },
    ]
}

// Whether the library has read as much of the file, and a graph of the same size.
fn same_size(ours: &OurGraph, graph: &Graph, read: usize) -> bool {
    let counts = ours.counts;
    counts.packages as usize == graph.packages.len()
        && counts.dependencies as usize == graph.dependencies.len()
        && counts.features as usize == graph.features.len()
        && counts.read == read
}

impl Case {
    // The case of a seed; none if the library refuses its file or reads something else.
    pub fn draw(heap: Global, seed: u64) -> anyhow::Result<Option<Case>> {
        let mut sketch = Sketch::new(heap, seed)?;
        let spelled = draw_graph(&mut sketch)?;
        let dice = &mut sketch.dice;
        let file = encode(heap, dice, spelled.as_slice())?;
        let graph = Graph::number(heap, decode(heap, file.as_slice())?.as_slice())?;
        let Some(ours) = open_file(heap, file.as_slice())? else {
            return Ok(None);
        };
        if !same_size(&ours, &graph, file.len()) {
            return Ok(None);
        }
        let items = graph.items(heap)?;
        let first = draw_request(heap, dice, &graph, items.len())?;
        let second = draw_request(heap, dice, &graph, items.len())?;
        let mut refused = second.clone()?;
        refused.extend(u32::try_from(items.len()).ok())?;
        Ok(Some(Case {
            ours,
            graph,
            items,
            first,
            second,
            refused,
            paces: draw_paces(dice),
        }))
    }

    fn items_of(&self, heap: Global, numbers: &[u32]) -> Result<Vec<Item>, AllocError> {
        let mut items = Vec::new(heap);
        for number in numbers {
            items.extend(self.items.get(*number as usize).copied())?;
        }
        Ok(items)
    }

    pub fn requests(&self) -> Requests<'_> {
        Requests {
            first: self.first.as_slice(),
            second: self.second.as_slice(),
            refused: self.refused.as_slice(),
        }
    }

    // What the second resolver finds.
    pub fn expect(&self, heap: Global, manner: Manner) -> Result<Prospect, AllocError> {
        let mut requested = self.items_of(heap, self.first.as_slice())?;
        let first = Expected::of(heap, &self.graph, manner, requested.as_slice())?;
        let more = self.items_of(heap, self.second.as_slice())?;
        requested.extend_from_slice(more.as_slice())?;
        let both = Expected::of(heap, &self.graph, manner, requested.as_slice())?;
        Ok(Prospect { first, both })
    }
}
