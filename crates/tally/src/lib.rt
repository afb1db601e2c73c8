//! Counts of what a program compares.

#![tactic(auto)]

ghost use Rattle.std.specs.Prelude.{◌≡◌};
ghost use Rattle.tally.specs.Notes.{note};

use std::fmt;

/// How many were compared, and how many differ.
#[derive(Default, Drop)]
pub struct Tally {
    pub compared: u64,
    pub differ: u64,
}

impl Tally {
    /// Counts one more that was compared, and one more that differs unless it is the same.
    pub fn note(&mut self, same: bool)
        ensures { self.new ≡ note self.old same }
    {
        self.compared = self.compared.saturating_add(1);
        self.differ = self.differ.saturating_add(u64::from(!same));
    }
}

impl fmt::Display for Tally {
    fn fmt<W: fmt::Write>(&self, f: &mut fmt::Formatter<W>) -> fmt::Result {
        let Tally { compared, differ } = self;
        write!(f, "{compared} compared, {differ} differ")
    }
}
