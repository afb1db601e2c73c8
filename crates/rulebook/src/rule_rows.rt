// Rows of rules, looked through one by one.
ghost use Rattle.std.specs.Prelude.{◌≡◌, ℕ, ◌-◌, Option};
ghost use Rattle.graph.specs.declared.rows.ItemRule.{ItemRule};
ghost use Rattle.rulebook.specs.Tables.{first_of};
ghost use Rattle.rulebook.specs.Watch.{entry_in};

use crate::entries::{RowEntry, WatchEntry};
use graph::ItemRule;

// Some rows, each with a rule or none.
pub trait RuleRows {
    ghost count: { Self → ℕ };

    ghost rule: { Self → ℕ → Option ItemRule };

    // How many rows there are.
    fn count(&self) -> u32
        ensures { result ≡ count self.now };

    // The rule of a row.
    fn rule(&self, row: u32) -> Option<ItemRule>
        ensures { result ≡ rule self.now row };
}

// The first watch entry of an item at or after a row.
pub(crate) fn first_entry<R: RuleRows>(rows: &R, item: u32, row: u32) -> Option<RowEntry>
    ensures { result
        ≡ first_of (λ k. entry_in (R.RuleRows.rule rows.now k) item) row
        (R.RuleRows.count rows.now - row) }
{
    (row..rows.count()).find_map(|row| {
        let entry = WatchEntry::of(rows.rule(row)?, item)?;
        Some(RowEntry { row, entry })
    })
}
