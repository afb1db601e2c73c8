// What the library answers: a session over the graph book of an opened file.
use graph::{Opened, open_graph};
use resolver::run_calls;
use rulebook::Rulebook;
use session::{Answer, Call, Session, TrailRecord, UNUSED};
use std::alloc::{AllocError, Global};

// An opened file.
#[derive(Drop)]
pub struct OurGraph {
    pub counts: Opened,
    pub words: Vec<u32>,
}

// more words than any graph that is drawn needs
const PLENTY: usize = 30_000;

// The graph of a file, unless it is refused.
pub fn open_file(heap: Global, file: &[u8]) -> Result<Option<OurGraph>, AllocError> {
    let mut words = vec![in heap; 0u32; PLENTY]?;
    match open_graph(file, words.as_mut_slice()) {
        Ok(counts) => Ok(Some(OurGraph { counts, words })),
        Err(_) => Ok(None),
    }
}

// What calls on a new session answer, none of them if they are refused, and the trail that they leave.
#[derive(Drop)]
pub struct Run {
    pub answers: Vec<Answer>,
    pub trail: Vec<TrailRecord>,
}

// Makes the calls on a new session by the book.
pub fn make_calls<B: Rulebook>(
    heap: Global,
    book: &B,
    calls: &[Call<'_>],
) -> Result<Run, AllocError> {
    let count = book.items();
    let mut places = vec![in heap; UNUSED; count as usize]?;
    let mut marks = vec![in heap; None; count as usize]?;
    let mut answers = vec![in heap; Answer::Active(Ok(false)); calls.len()]?;
    let mut session = Session::new(count, places.as_mut_slice(), marks.as_mut_slice());
    if run_calls(&mut session, book, calls, answers.as_mut_slice()).is_err() {
        answers.truncate(0);
    }
    let trail = Vec::from_slice(heap, session.trail())?;
    Ok(Run { answers, trail })
}
