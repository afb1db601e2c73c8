// What is printed of a graph and of a session on it.
use crate::lines::{Counts, RowLine, SettledLine, TrailLine, WatchLine};
use crate::opened::OpenedGraph;
use graph::{Item, LocalItem};
use lanes::Side;
use policy::HostSplit;
use refusals::Refusal;
use rulebook::{GraphBook, Rulebook};
use session::TrailRecord;
use std::io::Write;

// Prints the counts of a graph.
pub fn print_counts(out: &mut impl Write, graph: &OpenedGraph) -> anyhow::Result<()> {
    let counts = Counts {
        opened: graph.counts,
    };
    writeln!(out, "{counts}")?;
    Ok(())
}

// Prints the rule rows of a graph, each with its number.
fn print_rows(out: &mut impl Write, graph: &OpenedGraph) -> anyhow::Result<()> {
    let words = graph.graph_words();
    for number in 0..words.rows() {
        if let Some(row) = words.row(number) {
            let line = RowLine { number, row };
            writeln!(out, "{line}")?;
        }
    }
    Ok(())
}

// Prints what a unit watches, in row order.
fn print_watched<B: Rulebook>(out: &mut impl Write, book: &B, unit: u32) -> anyhow::Result<()> {
    let mut row = 0;
    while let Some(found) = book.seek(unit, row) {
        let line = WatchLine { unit, found };
        writeln!(out, "{line}")?;
        row = found.row + 1;
    }
    Ok(())
}

// Prints what the unit of package 0 on the target watches under host-split, if there is a package.
fn print_first_unit(out: &mut impl Write, graph: &OpenedGraph) -> anyhow::Result<()> {
    let first = Item {
        side: Side::Target,
        local: LocalItem::Unit(0),
    };
    match graph.graph_words().item_number(first) {
        Some(unit) => {
            let book = GraphBook::new(graph.words.as_slice(), &HostSplit);
            print_watched(out, &book, unit)
        }
        None => Ok(()),
    }
}

// Prints the rows of a graph and what its first unit watches.
pub fn print_rules(out: &mut impl Write, graph: &OpenedGraph) -> anyhow::Result<()> {
    print_rows(out, graph)?;
    print_first_unit(out, graph)
}

// Prints why a file or a call is refused, and where.
pub fn print_refusal(out: &mut impl Write, refusal: Refusal) -> anyhow::Result<()> {
    writeln!(out, "{refusal}")?;
    Ok(())
}

// Prints the records of a trail, each with its number, and how it was settled.
pub fn print_trail(out: &mut impl Write, trail: &[TrailRecord], steps: u64) -> anyhow::Result<()> {
    for (number, found) in trail.iter().enumerate() {
        let line = TrailLine {
            number,
            found: *found,
        };
        writeln!(out, "{line}")?;
    }
    let line = SettledLine { steps };
    writeln!(out, "{line}")?;
    Ok(())
}
