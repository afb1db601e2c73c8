// Mistakes that are easily made in a resolver, to see that the comparison would find them.
use crate::cases::Case;
use crate::compared::Tallies;
use crate::separation::Mistake;
use std::alloc::Global;

// how many graphs are resolved with each mistake
pub const TRIALS: u64 = 100;

// Whether the graph of a seed tells a mistake apart.
fn is_found(heap: Global, seed: u64, mistake: Mistake) -> anyhow::Result<bool> {
    let mut tallies = Tallies::default();
    if let Some(case) = Case::draw(heap, seed)? {
        case.compare_mistaken(heap, &mut tallies, mistake)?;
    }
    Ok(tallies.answers.differ > 0)
}

// How many graphs tell a mistake apart.
pub fn try_mistake(heap: Global, mistake: Mistake) -> anyhow::Result<u64> {
    let mut found: u64 = 0;
    for seed in 0..TRIALS {
        let more = u64::from(is_found(heap, seed, mistake)?);
        found = found.saturating_add(more);
    }
    Ok(found)
}
