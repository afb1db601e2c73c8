// The lines that are printed of a graph file.
ghost use Rattle.std.specs.Prelude.{◌≡◌};
ghost use Rattle.graph.specs.Words.{lane_word};

use graph::{ItemRule, Opened, Row};
use lanes::{LANES, Lane};
use rulebook::{RowEntry, WatchEntry};
use session::{Reason, TrailRecord};
use std::fmt;

// What an opened graph has.
#[derive(Clone, Copy)]
pub struct Counts {
    pub opened: Opened,
}

impl fmt::Display for Counts {
    fn fmt<W: fmt::Write>(&self, f: &mut fmt::Formatter<W>) -> fmt::Result {
        let Opened {
            read,
            packages,
            dependencies,
            features,
            rows,
        } = self.opened;
        write!(
            f,
            "graph: {packages} packages, {dependencies} dependencies, {features} features, "
        )?;
        write!(f, "{rows} rule rows; {read} bytes read")
    }
}

// A rule row, with its number. A row about no dependency has the number after those of the lanes.
#[derive(Clone, Copy)]
pub struct RowLine {
    pub number: u32,
    pub row: Row,
}

// The number that is printed of a lane: what stands for it in the words of a row.
fn lane_number(lane: Option<Lane>) -> u32
    ensures { result ≡ lane_word lane }
{
    lane.map_or(LANES, u32::from)
}

impl fmt::Display for RowLine {
    fn fmt<W: fmt::Write>(&self, f: &mut fmt::Formatter<W>) -> fmt::Result {
        let RowLine { number, row } = *self;
        let Row { rule, lane, cross } = row;
        let ItemRule { from, with, to } = rule;
        let (lane, cross) = (lane_number(lane), u32::from(cross));
        write!(f, "row {number}: from {from} with ")?;
        match with {
            Some(with) => write!(f, "{with}")?,
            None => write!(f, "-")?,
        }
        write!(f, " to {to} lane {lane} cross {cross}")
    }
}

// What a unit watches at a row.
#[derive(Clone, Copy)]
pub struct WatchLine {
    pub unit: u32,
    pub found: RowEntry,
}

impl fmt::Display for WatchLine {
    fn fmt<W: fmt::Write>(&self, f: &mut fmt::Formatter<W>) -> fmt::Result {
        let WatchLine { unit, found } = *self;
        let RowEntry { row, entry } = found;
        let WatchEntry {
            partner,
            conclusion,
        } = entry;
        write!(f, "unit {unit} watches row {row}: ")?;
        if let Some(partner) = partner {
            write!(f, "with {partner}, ")?;
        }
        write!(f, "conclusion {conclusion}")
    }
}

// What made an item active.
#[derive(Clone, Copy)]
pub struct Causes {
    pub first: Option<u32>,
    pub second: Option<u32>,
}

impl fmt::Display for Causes {
    fn fmt<W: fmt::Write>(&self, f: &mut fmt::Formatter<W>) -> fmt::Result {
        match (self.first, self.second) {
            (None, _) => write!(f, "requested"),
            (Some(first), None) => write!(f, "because of {first}"),
            (Some(first), Some(second)) => write!(f, "because of {first} and {second}"),
        }
    }
}

// A trail record, with its number.
#[derive(Clone, Copy)]
pub struct TrailLine {
    pub number: usize,
    pub found: TrailRecord,
}

impl fmt::Display for TrailLine {
    fn fmt<W: fmt::Write>(&self, f: &mut fmt::Formatter<W>) -> fmt::Result {
        let TrailLine { number, found } = *self;
        let TrailRecord {
            item,
            first,
            second,
        } = found;
        let causes = Causes { first, second };
        write!(f, "trail {number}: item {item}, {causes}")
    }
}

// How a session was settled.
#[derive(Clone, Copy)]
pub struct SettledLine {
    pub steps: u64,
}

impl fmt::Display for SettledLine {
    fn fmt<W: fmt::Write>(&self, f: &mut fmt::Formatter<W>) -> fmt::Result {
        let steps = self.steps;
        write!(f, "settled after {steps} steps: nothing pending")
    }
}

// What was asked of an item afterwards: whether it is active, and why.
#[derive(Clone, Copy)]
pub struct CheckLine {
    pub item: u32,
    pub active: bool,
    pub reason: Reason,
}

impl fmt::Display for CheckLine {
    fn fmt<W: fmt::Write>(&self, f: &mut fmt::Formatter<W>) -> fmt::Result {
        let CheckLine {
            item,
            active,
            reason,
        } = *self;
        let Reason { first, second } = reason;
        let causes = Causes { first, second };
        let answer = if active { "active" } else { "inactive" };
        write!(f, "asked: item {item} is {answer}, {causes}")
    }
}
