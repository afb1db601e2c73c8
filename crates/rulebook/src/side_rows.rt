// The rows of graph words, as rules between items.
ghost use Rattle.std.specs.Prelude.{◌≡◌, true};
ghost use Rattle.graph.specs.Words.{local_count, row_count, row_in, in_range};
ghost use Rattle.policy.specs.Answers.{answers_of};
ghost use Rattle.rulebook.specs.GraphTable.{row_lead, landing, on_sides, rule_on};

use crate::rule_rows::RuleRows;
use graph::{GraphWords, ItemRule};
use lanes::{Lane, Side};
use policy::PolicyTable;

// The side of a conclusion, unless the lane is cut.
fn landing_side(side: Side, cross: bool, lead: Option<Side>) -> Option<Side>
    ensures { result ≡ landing side cross lead }
{
    lead.map(|goal| if cross { goal } else { side })
}

// The rows of graph words, as rules whose premises are on a side.
#[derive(Drop)]
pub(crate) struct SideRows<'a> {
    pub words: GraphWords<'a>,
    pub answers: &'a PolicyTable,
    pub side: Side,
}

impl SideRows<'_> {
    // Where a lane leads.
    fn lead(&self, lane: Option<Lane>) -> Option<Side>
        ensures { result ≡ row_lead (answers_of self.now.answers.now) self.now.side lane }
    {
        let (answers, side) = (self.answers, self.side);
        lane.map_or(Some(side), |lane| answers.leads(lane, side))
    }

    // The rule of a row between items, with its conclusion on a side of its own.
    fn rule_to(&self, rule: ItemRule, goal: Side) -> ItemRule
        requires { in_range (local_count self.now.words.words.now) rule ≡ true }
        ensures { result ≡ on_sides (local_count self.now.words.words.now) self.now.side goal rule }
    {
        let here = self.words.first_item(self.side);
        let there = self.words.first_item(goal);
        ItemRule {
            from: here + rule.from,
            with: rule.with.map(|with| here + with),
            to: there + rule.to,
        }
    }
}

impl RuleRows for SideRows<'_> {
    ghost count = { λ s. row_count s.words.words.now };

    ghost rule = { λ s r. rule_on (answers_of s.answers.now) (local_count s.words.words.now) s.side
        (row_in s.words.words.now r) };

    fn count(&self) -> u32 {
        self.words.rows()
    }

    fn rule(&self, row: u32) -> Option<ItemRule> {
        let row = self.words.row(row)?;
        let goal = landing_side(self.side, row.cross, self.lead(row.lane))?;
        Some(self.rule_to(row.rule, goal))
    }
}
