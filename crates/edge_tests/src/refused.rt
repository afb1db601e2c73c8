// What opening answers of a file.
use graph::{Opened, open_graph};
use refusals::Refusal;

pub type Outcome = Result<Opened, Refusal>;

pub(crate) fn open(file: &[u8], words: &mut [u32]) -> Outcome {
    open_graph(file, words).map_err(Refusal::from)
}

// A refusal, by its places.
pub(crate) fn refused(
    number: u32,
    record_number: usize,
    start: usize,
    field: usize,
    prefix: usize,
) -> Refusal {
    Refusal {
        number,
        record_number,
        start,
        field,
        prefix,
    }
}
