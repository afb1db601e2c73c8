// Files opened by the library and by the second opener.
use crate::opener;
use graph::{Opened, open_graph};
use refusals::Refusal;
use std::alloc::{AllocError, Global};
use std::{fmt, iter};
use tally::Tally;

// What the library answers.
fn open(file: &[u8], words: &mut [u32]) -> Result<Opened, Refusal> {
    open_graph(file, words).map_err(Refusal::from)
}

// How many files were compared, how many of them differ, and how many are accepted.
#[derive(Default, Drop)]
pub struct FileTally {
    files: Tally,
    accepted: u64,
}

impl fmt::Display for FileTally {
    fn fmt<W: fmt::Write>(&self, f: &mut fmt::Formatter<W>) -> fmt::Result {
        let FileTally { files, accepted } = self;
        write!(f, "{files}, {accepted} accepted")
    }
}

// Words that tell whether they were written.
fn memory(heap: Global, len: usize) -> Result<Vec<u32>, AllocError> {
    iter::successors(Some(0xC0FF_EE00u32), |word| Some(word.wrapping_add(1)))
        .take(len)
        .collect(heap)
}

// Whether both openers answer the same in so many words and leave them the same; and what the second answers.
fn agree(
    heap: Global,
    file: &[u8],
    room: usize,
) -> Result<(bool, Result<Opened, Refusal>), AllocError> {
    let mut words = memory(heap, room)?;
    let mut others = words.clone()?;
    let outcome = open(file, words.as_mut_slice());
    let other = match opener::open(heap, file, others.as_mut_slice()) {
        Ok(opened) => Ok(opened),
        Err(stop) => Err(stop.refusal()?),
    };
    Ok((outcome == other && words == others, other))
}

// more words than any of the files needs
const PLENTY: usize = 2_000;

impl FileTally {
    // With plenty of words; if the file is accepted, also with just enough and with one less.
    pub fn compare(&mut self, heap: Global, file: &[u8]) -> Result<(), AllocError> {
        let (mut same, outcome) = agree(heap, file, PLENTY)?;
        if let Ok(opened) = outcome {
            self.accepted = self.accepted.saturating_add(1);
            let enough = (opened.rows as usize).saturating_mul(5).saturating_add(4);
            for room in [enough, enough.saturating_sub(1)] {
                let (agreed, _) = agree(heap, file, room)?;
                same = same && agreed;
            }
        }
        self.files.note(same);
        Ok(())
    }
}
