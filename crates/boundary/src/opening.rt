// Opening a graph file.
ghost use Rattle.std.specs.Prelude.{◌≡◌};
ghost use Rattle.boundary.specs.Calls.{naiadiron_open_answer};
ghost use Rattle.graph.specs.Opening.{open_leaves};

use graph::open_graph;

/// Opens a graph file into the words. The answer is one more than the number of its rule rows, or 0 if it is refused, and
/// the words are then as they were.
#[unsafe(no_mangle)]
pub extern "C" fn naiadiron_open(file: &[u8], words: &mut [u32]) -> u64
    ensures answer { result ≡ naiadiron_open_answer file.now words.old }
    ensures words { words.new ≡ open_leaves file.now words.old }
{
    match open_graph(file, words) {
        Ok(opened) => u64::from(opened.rows) + 1,
        Err(_) => 0,
    }
}
