// Compares sessions over graph books with a second resolver, on random graphs. Takes their number as its one argument.

#![tactic(auto)]

mod cases;
mod compared;
mod decode;
mod draws;
mod encode;
mod example;
mod follows;
mod graphs;
mod items;
mod numbering;
mod ours;
mod premises;
mod resolved;
mod scripts;
mod separation;
mod shortcuts;
mod sketches;
mod spelled;
mod trails;

use crate::compared::Tallies;
use crate::example::compare_example;
use crate::separation::MISTAKES;
use crate::shortcuts::{TRIALS, try_mistake};
use anyhow::Context;
use std::env;

// How many graphs there are without an argument.
const GRAPHS: u64 = 1_000;

// The number of graphs: that of the first argument after the program's name.
fn asked_graphs(rt: &HostRuntime) -> anyhow::Result<u64> {
    match env::args(rt)?.nth(1) {
        Some(argument) => argument
            .parse::<u64>()
            .context(format_args!("{argument:?} is no number of graphs")),
        None => Ok(GRAPHS),
    }
}

// Compares all graphs.
fn compare(rt: &HostRuntime) -> anyhow::Result<()> {
    let mut tallies = Tallies::default();
    for seed in 0..asked_graphs(rt)? {
        tallies.compare_case(rt.alloc(), seed)?;
    }
    let Tallies {
        graphs,
        answers,
        trails,
    } = &tallies;
    println!(rt; "resolved graphs: {graphs}")?;
    println!(rt; "calls: {answers}")?;
    println!(rt; "trail records: {trails}")?;
    Ok(())
}

// Tries each of the mistakes.
fn try_shortcuts(rt: &HostRuntime) -> anyhow::Result<()> {
    for mistake in MISTAKES {
        let found = try_mistake(rt.alloc(), mistake)?;
        println!(rt; "shortcut {mistake:?}: told apart by {found} of {TRIALS} graphs")?;
    }
    Ok(())
}

fn run(rt: &HostRuntime) -> anyhow::Result<()> {
    let example = compare_example(rt.alloc())?;
    println!(rt; "worked example: {example}")?;
    compare(rt)?;
    try_shortcuts(rt)
}

fn main(rt: HostRuntime) -> anyhow::Result<()> {
    run(&rt)
}
