// The watch entries of rules' premises.
ghost use Rattle.std.specs.Prelude.{◌≡◌};
ghost use Rattle.rulebook.specs.Watch.{watch_entry};

use graph::ItemRule;

/// What a premise of a rule watches: the other premise, if there is one, and the conclusion.
#[derive(Clone, Copy, PartialEq, Eq, Debug)]
pub struct WatchEntry {
    pub partner: Option<u32>,
    pub conclusion: u32,
}

/// A watch entry, with its row.
#[derive(Clone, Copy, PartialEq, Eq, Debug)]
pub struct RowEntry {
    pub row: u32,
    pub entry: WatchEntry,
}

impl WatchEntry {
    /// The watch entry of an item in a rule: none, if the item is no premise of it.
    pub fn of(rule: ItemRule, item: u32) -> Option<WatchEntry>
        ensures { result ≡ watch_entry rule item }
    {
        let partner = if rule.from == item {
            rule.with
        } else if rule.with == Some(item) {
            Some(rule.from)
        } else {
            return None;
        };
        let conclusion = rule.to;
        Some(WatchEntry {
            partner,
            conclusion,
        })
    }
}
