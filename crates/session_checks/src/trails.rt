// Trails, looked at record by record.
use crate::follows::World;
use crate::items::Item;
use crate::scripts::{Expected, Requests};
use session::{Answer, Reason, SessionFault, TrailRecord};
use std::alloc::{AllocError, Global};
use std::collections::BTreeSet;
use std::fmt;

// A trail that is left after two requests, and the items that its numbers mean.
#[derive(Clone, Copy)]
pub struct Trail<'t> {
    pub world: World<'t>,
    pub items: &'t [Item],
    pub requests: Requests<'t>,
    pub records: &'t [TrailRecord],
}

// The records of trails: how many there are, how many of them are wrong, how many have two causes, and how many are
// missing.
#[derive(Default, Drop)]
pub struct TrailTally {
    pub records: u64,
    pub wrong: u64,
    pub pairs: u64,
    pub missing: u64,
}

impl TrailTally {
    fn note(&mut self, record: TrailRecord, right: bool) {
        self.records = self.records.saturating_add(1);
        self.wrong = self.wrong.saturating_add(u64::from(!right));
        let pair = record.second.is_some();
        self.pairs = self.pairs.saturating_add(u64::from(pair));
    }
}

impl fmt::Display for TrailTally {
    fn fmt<W: fmt::Write>(&self, f: &mut fmt::Formatter<W>) -> fmt::Result {
        let TrailTally {
            records,
            wrong,
            pairs,
            missing,
        } = self;
        write!(
            f,
            "{records} checked, {pairs} of them with two causes, {wrong} wrong, {missing} missing"
        )
    }
}

impl<'t> Trail<'t> {
    fn item(self, number: u32) -> Option<Item> {
        self.items.get(number as usize).copied()
    }

    // The item of an older record.
    fn premise(self, number: usize, cause: u32) -> Option<Item> {
        let older = self.records.get(..number)?;
        self.item(older.get(cause as usize)?.item)
    }

    // Whether the item of a record was requested, or follows from the causes of the record. What was requested at first
    // has no causes; of a number out of range the answer is none.
    fn is_due(self, number: usize, record: TrailRecord) -> Option<bool> {
        let item = self.item(record.item)?;
        let at_first = self.requests.first.contains(&record.item);
        Some(match (record.first, record.second) {
            (None, None) => at_first || self.requests.second.contains(&record.item),
            (None, Some(_)) => false,
            (Some(cause), None) => {
                !at_first && self.world.follows(self.premise(number, cause)?, item)
            }
            (Some(cause), Some(other)) => {
                let cause = self.premise(number, cause)?;
                let other = self.premise(number, other)?;
                !at_first && self.world.follows_both(cause, other, item)
            }
        })
    }

    // Looks at each record; its item must be expected, and may be there once only. Each item expected must be there.
    pub fn check(
        self,
        heap: Global,
        tally: &mut TrailTally,
        expected: &Expected,
    ) -> Result<(), AllocError> {
        let mut seen = BTreeSet::new(heap);
        for (number, record) in self.records.iter().enumerate() {
            let fresh = seen.insert(record.item)?;
            let on = self
                .item(record.item)
                .is_some_and(|item| expected.on.contains(&item));
            let due = self.is_due(number, *record) == Some(true);
            tally.note(*record, fresh && on && due);
        }
        let missing = expected.on.len().saturating_sub(self.records.len());
        tally.missing = tally.missing.saturating_add(missing as u64);
        Ok(())
    }

    // What is to be answered where the reason of an item is asked for.
    pub fn reason(self, number: u32) -> Answer {
        if number as usize >= self.items.len() {
            return Answer::Reason(Err(SessionFault::Item));
        }
        let record = self.records.iter().find(|record| record.item == number);
        Answer::Reason(match record {
            Some(record) => Ok(Reason {
                first: record.first,
                second: record.second,
            }),
            None => Err(SessionFault::Inactive),
        })
    }
}
