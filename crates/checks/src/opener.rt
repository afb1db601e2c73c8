// A second opener of graph files: it decodes a file into packages with vectors and maps, looks every reference up,
// and lists the rows one by one.
mod fields;
mod graphs;
mod listing;
mod reading;
mod references;
mod stops;

use crate::opener::listing::{list_rows, words_of};
use crate::opener::reading::read_graph;
use crate::opener::references::look_up;
use crate::opener::stops::{Place, Stop, Why};
use graph::Opened;
use std::alloc::Global;

const MAX_BYTES: usize = 1_048_576;

const MAX_ROWS: u32 = 262_144;

// What is to be answered of a file. The words are written if it is accepted.
pub fn open(heap: Global, file: &[u8], words: &mut [u32]) -> Result<Opened, Stop> {
    if file.len() > MAX_BYTES {
        return Err(Place::NONE.refusal(Why::Many, 0, 0).into());
    }
    let (graph, read) = read_graph(heap, file)?;
    look_up(&graph)?;
    let listed = list_rows(heap, &graph)?;
    let rows = u32::try_from(listed.len()).unwrap_or(u32::MAX);
    if rows > MAX_ROWS {
        return Err(Place::NONE.refusal(Why::Many, 0, 0).into());
    }
    let mut written = vec![in heap; graph.count, graph.dependencies, graph.features, rows]?;
    written.extend(listed.iter().flat_map(words_of))?;
    let (front, _) = words
        .split_at_mut_checked(written.len())
        .ok_or(Place::NONE.refusal(Why::Memory, 0, 0))?;
    front.copy_from_slice(written.as_slice());
    Ok(Opened {
        read,
        packages: graph.count,
        dependencies: graph.dependencies,
        features: graph.features,
        rows,
    })
}
