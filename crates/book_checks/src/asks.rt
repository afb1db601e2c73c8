// Which items and rows a book is asked for.
use std::alloc::{AllocError, Global};

// Every item is asked for at every row.
#[derive(Drop)]
pub struct Asks {
    pub items: Vec<u32>,
    pub rows: Vec<u32>,
}

// the largest numbers, of no item and no row
const FAR: [u32; 2] = [4_294_967_294, 4_294_967_295];

// All numbers below a span, the numbers about a few others, and the far ones.
fn numbers(heap: Global, span: u32, about: &[u32]) -> Result<Vec<u32>, AllocError> {
    let near = about.iter().filter(|number| **number >= span).flat_map(
        |number| number.saturating_sub(2)..number.saturating_add(3),
    );
    (0..span).chain(near).chain(FAR).collect(heap)
}

impl Asks {
    // All items below 16 and rows below 10, and those about the given numbers.
    pub fn about(heap: Global, items: &[u32], rows: &[u32]) -> Result<Asks, AllocError> {
        Ok(Asks {
            items: numbers(heap, 16, items)?,
            rows: numbers(heap, 10, rows)?,
        })
    }
}
