// Opening a graph file: both readings, then its rule rows.
ghost use Rattle.std.specs.Prelude.{◌≡◌, ℕ, ◌+◌, ◌*◌, ◌≤◌, min, ◌++◌, length, take, drop};
ghost use Rattle.std.specs.List.{flat_map};
ghost use Rattle.records.specs.Graphs.{Graph};
ghost use Rattle.graph.specs.Law.{Says};
ghost use Rattle.graph.specs.Limits.{max_rule_rows};
ghost use Rattle.graph.specs.RowLists.{its};
ghost use Rattle.graph.specs.Opening.{over, rows_answer, words_after, open_answer, open_leaves};
ghost use Rattle.graph.specs.OpeningLaw.{OpeningLaw, RulesLaw};
ghost use Rattle.graph.specs.Words.{row_words, rows, graph_words, row_start};

use crate::faults::FileFault;
use crate::filled::Filled;
use crate::graph_words::row_start;
use crate::limits::MAX_RULE_ROWS;
use crate::row_writers::RowWriter;
use crate::rows::Opened;
use crate::tables::Directory;

impl<'a> Filled<'a> {
    // Writes the rows of the graph into the words behind the first four, as far as there is room. The answer is how
    // many rows there are, up to one past the limit. With no words it only counts.
    fn write_all(&self, words: &mut [u32]) -> u32
        ensures count { result ≡ min (length (rows (its self.now))) (max_rule_rows + 1) }
        ensures words { length (rows (its self.now)) ≤ max_rule_rows →
            row_start (length (rows (its self.now))) ≤ length words.old →
            words.new ≡ take (row_start 0) words.old ++ (flat_map row_words (rows (its self.now))
            ++ drop (row_start (length (rows (its self.now)))) words.old) }
    {
        let mut writer = RowWriter { words, count: 0 };
        self.write_package_rows(&mut writer);
        writer.count
    }

    // The words of the graph: how many packages, dependencies, features and rows there are, then the rows.
    fn write(&self, words: &mut [u32], count: u32)
        requires all { (count ≡ length (rows (its self.now))) × (count ≤ max_rule_rows) }
        requires room { row_start count ≤ length words.old }
        ensures { words.new ≡ over (graph_words (its self.now)) words.old }
    {
        self.write_all(words);
        let counts = self.directory.counts;
        words[0] = counts.packages;
        words[1] = counts.dependencies;
        words[2] = counts.features;
        words[3] = count;
    }

    // The words of the graph, if its rows are few enough and there is room for them.
    fn write_words(&self, words: &mut [u32]) -> Result<Opened, FileFault>
        ensures answer { result ≡
            rows_answer (its self.now) self.now.directory.now.counts.read words.old }
        ensures words { words.new ≡ words_after result (its self.now) words.old }
    {
        let rows = self.write_all(&mut []);
        if rows > MAX_RULE_ROWS {
            return Err(FileFault::Rows);
        }
        if words.len() < row_start(rows) {
            return Err(FileFault::Memory);
        }
        self.write(words, rows);
        let counts = self.directory.counts;
        Ok(Opened {
            read: counts.read,
            packages: counts.packages,
            dependencies: counts.dependencies,
            features: counts.features,
            rows,
        })
    }
}

/// Opens a graph file: writes four counts and the rule rows into the words, five words for each row. Bytes behind the
/// file's end record are free, and so are words behind the last row, which stay as they were.
///
/// A file is refused whose records are out of order or not well formed, that refers to what is not there, or that is
/// beyond a limit; and words that do not suffice. A refusal writes nothing.
pub fn open_graph(file: &[u8], words: &mut [u32]) -> Result<Opened, FileFault>
    ensures answer { result ≡ open_answer file.now words.old }
    ensures words { words.new ≡ open_leaves file.now words.old }
    ensures law { OpeningLaw file.now words.old result words.new }
    ensures rules { (g : Graph) → Says file.now g → RulesLaw g }
{
    let mut directory = Directory::new(file);
    directory.read()?;
    let filled = Filled {
        directory: &directory,
    };
    filled.second_reading()?;
    filled.write_words(words)
}
