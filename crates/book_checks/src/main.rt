// Compares policies and books with second computations of what they answer, on many inputs.

#![tactic(auto)]

mod asks;
mod books;
mod draws;
mod graphs;
mod houses;
mod plain;
mod policies;
mod readings;
mod sheets;
mod shortcuts;

fn run(rt: &HostRuntime) -> anyhow::Result<()> {
    let heap = rt.alloc();
    let policies = policies::compare_policies();
    println!(rt; "policies: {policies}")?;
    let graphs = graphs::compare_lawful(heap)?;
    println!(rt; "graph books: {graphs}")?;
    let damaged = graphs::compare_damaged(heap)?;
    println!(rt; "graph books, damaged: {damaged}")?;
    let counts = graphs::compare_counts(heap)?;
    println!(rt; "graph books, counts at the limits: {counts}")?;
    let rows = graphs::compare_rows(heap)?;
    println!(rt; "graph books, rows at the limit: {rows}")?;
    let houses = houses::compare_small(heap)?;
    println!(rt; "house books: {houses}")?;
    let long = houses::compare_long(heap)?;
    println!(rt; "house books, rows at the limit: {long}")?;
    let shortcuts = shortcuts::try_all(heap)?;
    println!(rt; "shortcuts: {shortcuts}")?;
    Ok(())
}

fn main(rt: HostRuntime) -> anyhow::Result<()> {
    run(&rt)
}
