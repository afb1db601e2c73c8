// Words read as plain books, by the rules of graph books and house books.
ghost use Rattle.std.specs.Prelude.{◌≡◌, ◌<◌, IfSome};

use crate::plain::{NONE, PlainBook, Rule};
use crate::sheets::{Goal, Sheet};
use std::alloc::{AllocError, Global};

// How the rows of a graph are read.
#[derive(Clone, Copy, PartialEq, Eq)]
pub enum Manner {
    // as the rules say
    Right,
    // what `with` watches is left out
    WithUnwatched,
    // from and with are taken for each other
    Swapped,
    // the conclusion stays on the side of from, whatever cross says
    CrossIgnored,
    // a cut lane only takes away the rows with cross 1
    CutStays,
    // a row about no dependency concludes on the target
    NoLaneToTarget,
}

// A side of a graph book: its first item, and where its lanes lead.
#[derive(Clone, Copy)]
struct Half {
    first: u64,
    goals: [Goal; 6],
}

// How a graph is read: its local items, and on which side conclusions are.
#[derive(Clone, Copy)]
struct Reading {
    count: u64,
    manner: Manner,
    half: Half,
}

// A word as a number below a count.
fn below(word: u32, count: u64) -> Option<u64>
    ensures { IfSome result (λ item. (item ≡ word) × (item < count)) }
{
    let item = u64::from(word);
    (item < count).then_some(item)
}

// The rule of three words, all below the count; the outer `None` is no rule.
fn rule_of(from: u32, with: u32, to: u32, count: u64) -> Option<Rule> {
    let with = if with == NONE {
        None
    } else {
        Some(below(with, count)?)
    };
    let from = below(from, count)?;
    let to = below(to, count)?;
    Some(Rule { from, with, to })
}

impl Reading {
    // The first item of the side of the conclusion.
    fn landing(&self, lane: u32, cross: u32) -> Option<u64> {
        let stay = self.half.first;
        let goal = match (lane, self.manner) {
            (6, Manner::NoLaneToTarget) => return Some(0),
            (6, _) => return Some(stay),
            _ => *self.half.goals.get(lane as usize)?,
        };
        match (goal, cross, self.manner) {
            (Goal::Cut, 0, Manner::CutStays) => Some(stay),
            (Goal::Cut, _, _) => None,
            (_, 0, _) | (_, _, Manner::CrossIgnored) => Some(stay),
            (Goal::Target, _, _) => Some(0),
            (Goal::Host, _, _) => Some(self.count),
        }
    }

    // The rule of a row, if it gives one on this side.
    fn rule(&self, row: [u32; 5]) -> Option<Rule> {
        let [from, with, to, lane, cross] = row;
        let (from, with) = match self.manner {
            Manner::Swapped => (with, from),
            _ => (from, with),
        };
        if lane > 6 || cross > 1 {
            return None;
        }
        let local = rule_of(from, with, to, self.count)?;
        let landing = self.landing(lane, cross)?;
        let first = self.half.first;
        Some(Rule {
            from: local.from.saturating_add(first),
            with: local.with.map(|with| with.saturating_add(first)),
            to: local.to.saturating_add(landing),
        })
    }

    fn add_rows(&self, book: &mut PlainBook, rows: &[[u32; 5]]) -> Result<(), AllocError> {
        let mut number = 0u64;
        for row in rows {
            match self.rule(*row) {
                Some(rule) if self.manner == Manner::WithUnwatched => book.add_from(number, rule)?,
                Some(rule) => book.add(number, rule)?,
                None => {}
            }
            number = number.saturating_add(1);
        }
        Ok(())
    }
}

// The local items and the rows of graph words.
fn parts(words: &[u32]) -> Option<(u64, &[[u32; 5]])> {
    let [packages, dependencies, features, rows, rest @ ..] = words else {
        return None;
    };
    if *packages > 4_096 || *dependencies > 16_384 || *features > 16_384 || *rows > 262_144 {
        return None;
    }
    let rest = rest.get(..5 * (*rows as usize))?;
    let (rows, _) = rest.as_chunks::<5>();
    let count = u64::from(*packages) + u64::from(*dependencies) + u64::from(*features);
    Some((count, rows))
}

// The book of graph words under a policy, whose answers are the sheet.
pub fn graph_book(
    heap: Global,
    words: &[u32],
    sheet: &Sheet,
    manner: Manner,
) -> Result<PlainBook, AllocError> {
    let (count, rows) = parts(words).unwrap_or((0, &[]));
    let mut book = PlainBook::new(heap, count.saturating_mul(2), rows.len() as u64);
    let target = Half {
        first: 0,
        goals: sheet.from_target,
    };
    let host = Half {
        first: count,
        goals: sheet.from_host,
    };
    for half in [target, host] {
        let reading = Reading {
            count,
            manner,
            half,
        };
        reading.add_rows(&mut book, rows)?;
    }
    Ok(book)
}

// The book of an item count and words written by hand.
pub fn house_book(heap: Global, items: u32, words: &[u32]) -> Result<PlainBook, AllocError> {
    let count = if items > 73_728 { 0 } else { u64::from(items) };
    let (rows, _) = words.as_chunks::<3>();
    let rows = rows.get(..4_096).unwrap_or(rows);
    let mut book = PlainBook::new(heap, count, rows.len() as u64);
    let mut number = 0u64;
    for [from, with, to] in rows {
        if let Some(rule) = rule_of(*from, *with, *to, count) {
            book.add(number, rule)?;
        }
        number = number.saturating_add(1);
    }
    Ok(book)
}
