// A graph file opened into words of the program's own.
ghost use Rattle.std.specs.Prelude.{◌≡◌};
ghost use Rattle.demo.specs.declared.opened.OpenError.TheVariants.{Refused, Memory};

use graph::{FileFault, GraphWords, MAX_RULE_ROWS, Opened, open_graph};
use std::alloc::{AllocError, Global};

// Why there is no opened graph.
#[derive(Drop)]
pub enum OpenError {
    // the file is refused
    Refused(FileFault),
    // the program itself has no memory left
    Memory(AllocError),
}

impl From<FileFault> for OpenError {
    ghost from_gives = { λ x y. y ≡ Refused x };

    fn from(fault: FileFault) -> OpenError {
        OpenError::Refused(fault)
    }
}

impl From<AllocError> for OpenError {
    ghost from_gives = { λ x y. y ≡ Memory x };

    fn from(e: AllocError) -> OpenError {
        OpenError::Memory(e)
    }
}

// An opened graph: its counts, which are the answer of opening, and memory that begins with its words.
#[derive(Drop)]
pub struct OpenedGraph {
    pub counts: Opened,
    pub words: Vec<u32>,
}

impl OpenedGraph {
    // The words of the graph, to be read.
    pub fn graph_words(&self) -> GraphWords<'_>
        ensures { result.words.now ≡ self.now.words.items }
    {
        GraphWords::of(self.words.as_slice())
    }
}

// As many rule rows as most graphs have.
const FEW_ROWS: u32 = 1_024;

// Opens the file with words for a graph of so many rows.
fn open_within(heap: Global, file: &[u8], rows: u32) -> Result<OpenedGraph, OpenError> {
    let mut words = vec![in heap; 0u32; GraphWords::len_with(rows)]?;
    let counts = open_graph(file, words.as_mut_slice())?;
    Ok(OpenedGraph { counts, words })
}

// Opens the file with few words, and if these are too few with as many as any graph takes.
pub fn open_file(heap: Global, file: &[u8]) -> Result<OpenedGraph, OpenError> {
    match open_within(heap, file, FEW_ROWS) {
        Err(OpenError::Refused(FileFault::Memory)) => open_within(heap, file, MAX_RULE_ROWS),
        answer => answer,
    }
}
