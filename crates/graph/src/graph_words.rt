// Reading the words of a graph: counts, rule rows and the numbers of items.
ghost use Rattle.std.specs.Prelude.{◌≡◌, ◌+◌, ◌≤◌, length, Some, IfSome};
ghost use Rattle.graph.specs.Limits.{max_local_items, row_width};
ghost use Rattle.graph.specs.Items.{first_item, side_of, numbered_from, local_number, local_item, item_number, item_at};
ghost use Rattle.graph.specs.Words.{row_start, are_graph_words, word_counts, local_count, row_at, row_in};

use crate::items::{Item, LocalItem};
use crate::limits::{MAX_DEPENDENCIES, MAX_FEATURES, MAX_PACKAGES, MAX_RULE_ROWS};
use crate::rows::{HEAD_WORDS, ROW_WIDTH, Row};
use lanes::Side;

// Where a row begins in graph words, and where the rows before it end.
pub(crate) fn row_start(row: u32) -> usize
    ensures { result ≡ row_start row }
{
    HEAD_WORDS + ROW_WIDTH * row as usize
}

// Whether the words begin with counts within their limits, and with as many rows as these say.
fn are_graph_words(words: &[u32]) -> bool
    ensures { result ≡ are_graph_words words.now }
{
    words.len() >= HEAD_WORDS
        && words[0] as usize <= MAX_PACKAGES
        && words[1] as usize <= MAX_DEPENDENCIES
        && words[2] as usize <= MAX_FEATURES
        && words[3] <= MAX_RULE_ROWS
        && row_start(words[3]) <= words.len()
}

// How many packages, dependencies, features and rule rows words have.
#[derive(Clone, Copy)]
pub(crate) struct WordCounts {
    pub packages: u32,
    pub dependencies: u32,
    pub features: u32,
    pub rows: u32,
}

impl WordCounts {
    // The counts of words: all are 0 if these are no graph words.
    fn of(words: &[u32]) -> WordCounts
        ensures { result ≡ word_counts words.now }
    {
        if are_graph_words(words) {
            WordCounts {
                packages: words[0],
                dependencies: words[1],
                features: words[2],
                rows: words[3],
            }
        } else {
            WordCounts {
                packages: 0,
                dependencies: 0,
                features: 0,
                rows: 0,
            }
        }
    }
}

/// The words of a graph, as opening writes them, whatever follows them: how many packages, dependencies, features and
/// rule rows there are, then the rows. Other words read as those of a graph without packages.
#[derive(Clone, Copy)]
pub struct GraphWords<'a> {
    words: &'a [u32],
    counts: WordCounts,
    ghost counted: { counts ≡ word_counts words.now },
}

// The row whose words begin at a place: none, if what they say is out of range.
fn row_at(words: &[u32], items: u32, start: usize) -> Option<Row>
    requires { start + row_width ≤ length words.now }
    ensures { result ≡ row_at items words.now start }
{
    let words = words[start..].first_chunk()?;
    let row = Row::try_from(*words).ok()?;
    row.rule.is_below(items).then_some(row)
}

// Number `k` of so many, which are numbered from `first` on.
fn numbered_from(first: u32, count: u32, k: u32) -> Option<u32>
    requires { first + count ≤ max_local_items }
    ensures { result ≡ numbered_from first count k }
{
    if k < count { Some(first + k) } else { None }
}

impl<'a> GraphWords<'a> {
    /// Reads words: their counts at once, each row when it is asked for.
    pub fn of(words: &'a [u32]) -> GraphWords<'a>
        ensures { result.words.now ≡ words.now }
    {
        GraphWords {
            words,
            counts: WordCounts::of(words),
        }
    }

    /// How many words a graph with so many rule rows has.
    pub fn len_with(rows: u32) -> usize
        ensures { result ≡ row_start rows }
    {
        row_start(rows)
    }

    /// How many packages there are.
    pub fn packages(&self) -> u32
        ensures { result ≡ (word_counts self.now.words.now).packages }
    {
        self.counts.packages
    }

    /// How many dependencies there are.
    pub fn dependencies(&self) -> u32
        ensures { result ≡ (word_counts self.now.words.now).dependencies }
    {
        self.counts.dependencies
    }

    /// How many features there are.
    pub fn features(&self) -> u32
        ensures { result ≡ (word_counts self.now.words.now).features }
    {
        self.counts.features
    }

    /// How many rule rows there are.
    pub fn rows(&self) -> u32
        ensures { result ≡ (word_counts self.now.words.now).rows }
    {
        self.counts.rows
    }

    /// How many items there are on each side: units, dependencies and features.
    pub fn items(&self) -> u32
        ensures { result ≡ local_count self.now.words.now }
    {
        let WordCounts {
            packages,
            dependencies,
            features,
            ..
        } = self.counts;
        packages + dependencies + features
    }

    /// The row of a number, its items by local number: none beyond the rows, or if what its words say is out of range.
    pub fn row(&self, row: u32) -> Option<Row>
        ensures { result ≡ row_in self.now.words.now row }
    {
        if row >= self.rows() {
            return None;
        }
        row_at(self.words, self.items(), row_start(row))
    }

    /// The number of the first item of a side; the others of the side follow it.
    pub fn first_item(&self, side: Side) -> u32
        ensures { result ≡ first_item (local_count self.now.words.now) side }
    {
        u32::from(side) * self.items()
    }

    /// The side of an item, if there is an item of this number.
    pub fn side_of(&self, item: u32) -> Option<Side>
        ensures { result ≡ side_of (local_count self.now.words.now) item }
    {
        let items = self.items();
        if items == 0 {
            return None;
        }
        Side::try_from(item / items).ok()
    }

    // The number of a unit, dependency or feature on its side, if there is such a one.
    fn local_number(&self, item: LocalItem) -> Option<u32>
        ensures { result ≡ local_number (word_counts self.now.words.now) item }
    {
        let WordCounts {
            packages,
            dependencies,
            features,
            ..
        } = self.counts;
        match item {
            LocalItem::Unit(unit) => numbered_from(0, packages, unit),
            LocalItem::Dependency(dependency) => {
                numbered_from(packages, dependencies, dependency)
            }
            LocalItem::Feature(feature) => {
                numbered_from(packages + dependencies, features, feature)
            }
        }
    }

    // The unit, dependency or feature of a number on its side.
    fn local_item(&self, number: u32) -> Option<LocalItem>
        ensures { result ≡ local_item (word_counts self.now.words.now) number }
    {
        let counts = self.counts;
        if number < counts.packages {
            return Some(LocalItem::Unit(number));
        }
        let number = number - counts.packages;
        if number < counts.dependencies {
            return Some(LocalItem::Dependency(number));
        }
        let number = number - counts.dependencies;
        (number < counts.features).then_some(LocalItem::Feature(number))
    }

    /// The number of an item: none if there is no such package, dependency or feature.
    pub fn item_number(&self, item: Item) -> Option<u32>
        ensures number { result ≡ item_number (word_counts self.now.words.now) item }
        ensures back { IfSome result (λ n. item_at (word_counts self.now.words.now) n ≡ Some item) }
    {
        let number = self.local_number(item.local)?;
        Some(self.first_item(item.side) + number)
    }

    /// The item of a number: none beyond the items of both sides.
    pub fn item(&self, number: u32) -> Option<Item>
        ensures item { result ≡ item_at (word_counts self.now.words.now) number }
        ensures back { IfSome result (λ x. item_number (word_counts self.now.words.now) x ≡ Some number) }
    {
        let side = self.side_of(number)?;
        let local = self.local_item(number - self.first_item(side))?;
        Some(Item { side, local })
    }
}
