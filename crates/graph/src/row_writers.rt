// Writing rule rows into words.
ghost use Rattle.std.specs.Prelude.{◌≡◌, ◌+◌, ◌≤◌, length};
ghost use Rattle.graph.specs.Limits.{row_width};
ghost use Rattle.graph.specs.Words.{row_words};
ghost use Rattle.graph.specs.RowWriters.{put, write_row};

use crate::graph_words::row_start;
use crate::limits::MAX_RULE_ROWS;
use crate::rows::{ROW_WIDTH, Row};

// Words that rule rows are written into, and how many rows there are so far, up to one past the limit.
#[derive(Drop)]
pub(crate) struct RowWriter<'w> {
    pub words: &'w mut [u32],
    pub count: u32,
}

// The words of a row, at a place.
fn put_row(words: &mut [u32], at: usize, row: Row)
    requires { at + row_width ≤ length words.old }
    ensures { words.new ≡ put words.old at (row_words row) }
{
    words[at..at + ROW_WIDTH].copy_from_slice(&<[u32; ROW_WIDTH]>::from(row));
}

impl RowWriter<'_> {
    // One row more: it is written where there is room for it, and counted.
    pub(crate) fn write_row(&mut self, row: Row)
        ensures { self.new ≡ write_row self.old row }
    {
        let at = row_start(self.count);
        if at + ROW_WIDTH <= self.words.len() {
            put_row(self.words, at, row);
        }
        self.count = self.count.saturating_add(1).min(MAX_RULE_ROWS + 1);
    }
}
