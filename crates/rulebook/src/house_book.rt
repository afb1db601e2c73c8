// The house book: rules between items, written by hand.
ghost use Rattle.std.specs.Prelude.{◌≡◌, ℕ, ◌*◌, ◌<◌, [], length, take, drop, slice_index_or};
ghost use Rattle.rulebook.specs.HouseTable.{house_width, count_of, house_rows, house_rule, house_table};
ghost use Rattle.std.proofs.Common.{rules};

use crate::book::Rulebook;
use crate::entries::RowEntry;
use crate::limits::{MAX_HOUSE_ROWS, MAX_ITEMS};
use crate::rule_rows::{RuleRows, first_entry};
use graph::{ItemRule, with_of};

// The words of a row.
const ROW_WIDTH: usize = 3;

/// Rules over `items` items, none if these are more than 73,728: each three words, from, with, to, are one, up to
/// 4,096. A rule that names an item beyond the items is none.
#[derive(Clone, Copy)]
pub struct HouseBook<'a> {
    pub items: u32,
    pub words: &'a [u32],
}

// The whole rows of the words, up to the limit.
fn rows(words: &[u32]) -> &[[u32; ROW_WIDTH]]
    ensures len { length result.now ≡ house_rows words.now }
    ensures each { (r : ℕ) → r < length result.now →
        slice_index_or result.now r [] ≡ take house_width (drop (house_width * r) words.now) }
{
    let (rows, _) = words.as_chunks();
    &rows[..rows.len().min(MAX_HOUSE_ROWS)]
}

impl HouseBook<'_> {
    // The item count, or 0 over the limit: such a book has no items.
    fn item_count(&self) -> u32
        ensures { result ≡ count_of self.now.items }
    {
        if self.items > MAX_ITEMS {
            0
        } else {
            self.items
        }
    }
}

impl RuleRows for HouseBook<'_> {
    ghost count = { λ s. house_rows s.words.now };

    ghost rule = { λ s r. house_rule (count_of s.items) s.words.now r };

    fn count(&self) -> u32 {
        rows(self.words).len() as u32
    }

    fn rule(&self, row: u32) -> Option<ItemRule> {
        let [from, with, to] = *rows(self.words).get(row as usize)?;
        let with = with_of(with);
        let rule = ItemRule { from, with, to };
        rule.is_below(self.item_count()).then_some(rule)
    }
}

impl Rulebook for HouseBook<'_> {
    ghost table = { λ s. house_table s.items s.words.now };

    ghost lawful = { Prim.search rules };

    fn items(&self) -> u32 {
        self.item_count()
    }

    fn rows(&self) -> u32 {
        self.count()
    }

    fn seek(&self, item: u32, row: u32) -> Option<RowEntry> {
        first_entry(self, item, row)
    }
}
