// Rule rows.
ghost use Rattle.std.specs.Prelude.{◌≡◌};
ghost use Rattle.std.specs.Result.{result_ok};
ghost use Rattle.graph.specs.Words.{with_of, row_words, row_from, in_range};

use lanes::{LANES, Lane};

// How many words stand before the rows of graph words, and how many a row has.
pub(crate) const HEAD_WORDS: usize = 4;

pub(crate) const ROW_WIDTH: usize = 5;

// The word that means none.
const NONE: u32 = u32::MAX;

/// A rule between items by number: with its premises active, which are `from` and `with`, if there is one, `to` is to
/// be active.
#[derive(Clone, Copy, PartialEq, Eq, Debug)]
pub struct ItemRule {
    pub from: u32,
    pub with: Option<u32>,
    pub to: u32,
}

impl ItemRule {
    /// Whether the rule names only items below a count.
    pub fn is_below(self, count: u32) -> bool
        ensures { result ≡ in_range count self }
    {
        self.from < count && self.to < count && self.with.is_none_or(|with| with < count)
    }
}

/// A rule row: a rule between items by local number, of a lane, or about no dependency. With `cross` the conclusion is
/// on the side where the lane leads, else on that of the premises.
#[derive(Clone, Copy, PartialEq, Eq, Debug)]
pub struct Row {
    pub rule: ItemRule,
    pub lane: Option<Lane>,
    pub cross: bool,
}

/// Words that are no row: the lane or cross is out of range.
#[derive(Clone, Copy, PartialEq, Eq, Debug)]
pub struct NoRow;

/// What an accepted opening answers: the bytes read, and how many packages, dependencies, features and rule rows
/// there are.
#[derive(Clone, Copy, PartialEq, Eq, Debug)]
pub struct Opened {
    pub read: usize,
    pub packages: u32,
    pub dependencies: u32,
    pub features: u32,
    pub rows: u32,
}

/// The item that a word names: none for the largest word.
pub fn with_of(word: u32) -> Option<u32>
    ensures { result ≡ with_of word }
{
    (word != NONE).then_some(word)
}

/// The words of a row: from, with, to, the number of the lane and cross.
impl From<Row> for [u32; ROW_WIDTH] {
    ghost from_gives = { λ row words. words ≡ row_words row };

    fn from(row: Row) -> [u32; ROW_WIDTH] {
        [
            row.rule.from,
            row.rule.with.unwrap_or(NONE),
            row.rule.to,
            row.lane.map_or(LANES, u32::from),
            u32::from(row.cross),
        ]
    }
}

/// The row of five words.
impl TryFrom<[u32; ROW_WIDTH]> for Row {
    type Error = NoRow;

    ghost try_from_gives = { λ words r. result_ok r ≡ row_from words };

    fn try_from(words: [u32; ROW_WIDTH]) -> Result<Row, NoRow> {
        let [from, with, to, lane, cross] = words;
        if lane > LANES || cross > 1 {
            return Err(NoRow);
        }
        Ok(Row {
            rule: ItemRule {
                from,
                with: with_of(with),
                to,
            },
            lane: Lane::try_from(lane).ok(),
            cross: cross == 1,
        })
    }
}
