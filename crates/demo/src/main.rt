// Opens the graph file on standard input. Without arguments it prints the counts of the graph, its rule rows and what its
// first unit watches. With item numbers as arguments it requests these items under host-split, settles, and prints the
// trail. Where something is refused, it prints why.

#![tactic(auto)]

mod asked;
mod lines;
mod listing;
mod opened;
mod resolved;
#[cfg(test)]
mod tests;

use crate::asked::asked_items;
use crate::listing::{print_counts, print_refusal, print_rules};
use crate::opened::{OpenError, OpenedGraph, open_file};
use crate::resolved::print_resolved;
use refusals::Refusal;
use std::alloc::Global;
use std::io::{BufWriter, Read, Write};

// Prints what is wanted of an opened graph.
fn print_graph(
    out: &mut impl Write,
    heap: Global,
    graph: &OpenedGraph,
    items: &[u32],
) -> anyhow::Result<()> {
    print_counts(out, graph)?;
    if items.is_empty() {
        print_rules(out, graph)
    } else {
        print_resolved(out, heap, graph, items)
    }
}

// Prints what is wanted of a graph file, or why it is refused.
fn print_answer(
    out: &mut impl Write,
    heap: Global,
    file: &[u8],
    items: &[u32],
) -> anyhow::Result<()> {
    match open_file(heap, file) {
        Ok(graph) => print_graph(out, heap, &graph, items),
        Err(OpenError::Refused(fault)) => print_refusal(out, Refusal::from(fault)),
        Err(OpenError::Memory(e)) => Err(e.into()),
    }
}

fn run(rt: &HostRuntime) -> anyhow::Result<()> {
    let items = asked_items(rt)?;
    let mut file = Vec::new(rt.alloc());
    rt.stdin().read_to_end(&mut file)?;
    let mut out = BufWriter::new(rt.alloc(), rt.stdout())?;
    print_answer(&mut out, rt.alloc(), file.as_slice(), items.as_slice())?;
    out.flush()?;
    Ok(())
}

fn main(rt: HostRuntime) -> anyhow::Result<()> {
    run(&rt)
}
