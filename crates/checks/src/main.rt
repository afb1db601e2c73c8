// Compares the library with second computations of its answers, on many inputs. Takes the number of random files of
// each kind as its one argument.

#![tactic(auto)]

mod compared;
mod damaged;
mod example;
mod opener;
mod random;
mod second;
mod sketches;
mod strings;

use crate::random::{compare_changed, compare_drawn};
use crate::sketches::Care;
use anyhow::Context;
use std::env;
use std::env::{Env, FillError};

// How many random files of each kind there are without an argument.
const FILES: u64 = 1_000;

// Whether nothing follows the program's name, which is not read: it may be any bytes.
fn is_alone(rt: &HostRuntime) -> bool {
    matches!(rt.arg(1, &mut []), Err(FillError::NotPresent))
}

// The number of files: that of the first argument after the program's name.
fn asked_files(rt: &HostRuntime) -> anyhow::Result<u64> {
    if is_alone(rt) {
        return Ok(FILES);
    }
    match env::args(rt)?.nth(1) {
        Some(argument) => argument
            .parse::<u64>()
            .context(format_args!("{argument:?} is no number of files")),
        None => Ok(FILES),
    }
}

// Strings, and damaged copies of the example.
fn compare_tables(rt: &HostRuntime) -> anyhow::Result<()> {
    let heap = rt.alloc();
    let short = strings::compare_short(heap)?;
    println!(rt; "short strings: {short}")?;
    let long = strings::compare_long(heap)?;
    println!(rt; "long strings: {long}")?;
    let bytes = damaged::compare_bytes(heap)?;
    println!(rt; "graph files, a byte changed: {bytes}")?;
    let cuts = damaged::compare_cuts(heap)?;
    println!(rt; "graph files, cut or followed by more: {cuts}")?;
    let records = damaged::compare_records(heap)?;
    println!(rt; "graph files, a record left out, doubled or moved: {records}")?;
    let exchanges = damaged::compare_exchanges(heap)?;
    println!(rt; "graph files, records exchanged: {exchanges}")?;
    Ok(())
}

// Random files.
fn compare_random(rt: &HostRuntime) -> anyhow::Result<()> {
    let heap = rt.alloc();
    let count = asked_files(rt)?;
    let lawful = compare_drawn(heap, count, Care::Careful)?;
    println!(rt; "random lawful graphs: {lawful}")?;
    let careless = compare_drawn(heap, count, Care::Careless)?;
    println!(rt; "random careless graphs: {careless}")?;
    let changed = compare_changed(heap, count)?;
    println!(rt; "random lawful graphs, a byte changed: {changed}")?;
    Ok(())
}

fn run(rt: &HostRuntime) -> anyhow::Result<()> {
    compare_tables(rt)?;
    compare_random(rt)
}

fn main(rt: HostRuntime) -> anyhow::Result<()> {
    run(&rt)
}
