// The graph book: the rules of graph words on both sides, where a policy lets them lead.
ghost use Rattle.std.specs.Prelude.{◌≡◌, ℕ, List};
ghost use Rattle.records.specs.Graphs.{Graph};
ghost use Rattle.graph.specs.Opening.{over};
ghost use Rattle.graph.specs.OpeningLaw.{Opens};
ghost use Rattle.graph.specs.Words.{graph_words};
ghost use Rattle.policy.specs.Answers.{answers_of};
ghost use Rattle.rulebook.specs.GraphRules.{TableOf};
ghost use Rattle.rulebook.specs.GraphTable.{graph_table};
ghost use Rattle.rulebook.specs.GraphLaws.{graph-laws};

use crate::book::Rulebook;
use crate::entries::RowEntry;
use crate::rule_rows::first_entry;
use crate::side_rows::SideRows;
use graph::GraphWords;
use lanes::SIDES;
use policy::{Policy, PolicyTable};

/// The rules of graph words, with the answers of a policy. Its items are those of the target, then those of the host.
#[derive(Clone, Drop)]
pub struct GraphBook<'a> {
    words: GraphWords<'a>,
    answers: PolicyTable,
}

impl<'a> GraphBook<'a> {
    /// The book of graph words under a policy, which is asked once. Words that are no graph words make a book without
    /// items.
    pub fn new<P: Policy>(words: &'a [u32], policy: &P) -> GraphBook<'a>
        ensures table { ⟦<GraphBook<'a> as Rulebook>⟧.table result
            ≡ graph_table (P.Policy.answers policy.now) words.now }
        ensures rules { (file before : List ℕ) (g : Graph) → Opens file before g →
            words.now ≡ over (graph_words g) before →
            TableOf (P.Policy.answers policy.now) g (⟦<GraphBook<'a> as Rulebook>⟧.table result) }
    {
        GraphBook {
            words: GraphWords::of(words),
            answers: PolicyTable::of(policy),
        }
    }
}

impl Rulebook for GraphBook<'_> {
    ghost table = { λ s. graph_table (answers_of s.answers) s.words.words.now };

    ghost lawful = { λ b. graph-laws (answers_of b.answers) b.words.words.now };

    fn items(&self) -> u32 {
        SIDES * self.words.items()
    }

    fn rows(&self) -> u32 {
        self.words.rows()
    }

    fn seek(&self, item: u32, row: u32) -> Option<RowEntry> {
        let rows = SideRows {
            words: self.words,
            answers: &self.answers,
            side: self.words.side_of(item)?,
        };
        first_entry(&rows, item, row)
    }
}
