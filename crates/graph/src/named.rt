// Finding the dependencies of a package by name.
ghost use Rattle.std.specs.Prelude.{◌≡◌, ℕ, ◌+◌, ◌-◌, ◌<◌, ◌≤◌, length, slice_index_or, Some, option_map};
ghost use Rattle.graph.specs.Places.{dependencies_of, dependencies_before};
ghost use Rattle.graph.specs.Depending.{depending};
ghost use Rattle.graph.specs.Directory.{no_depending};
ghost use Rattle.graph.specs.RowLists.{its};
ghost use Rattle.graph.specs.Namesakes.{namesakes, left, namesake_view};

use crate::contents::DeclarationRecord;
use crate::filled::Filled;
use crate::index::Key;
use crate::namesakes::{Namesake, Namesakes};

impl<'a> Filled<'a> {
    // Dependency `k` of the graph.
    fn dependency(&self, k: u32) -> Option<Namesake<'a>>
        requires { k < length (depending 0 (its self.now)) }
        ensures { option_map namesake_view result ≡ Some (length (its self.now) + k, (slice_index_or (depending 0 (its self.now)) k no_depending).dependency) }
    {
        let start = self.directory.dependencies[k as usize];
        match self.declaration_at(start)? {
            DeclarationRecord::Dependency(dependency) => Some(Namesake {
                item: self.directory.counts.packages + k,
                dependency,
            }),
            DeclarationRecord::Feature(_) => None,
        }
    }

    // Where the entries of a package begin and end in the index of dependencies, which has the last one of the file first.
    fn entries_of(&self, p: u32) -> (u32, u32)
        ensures low { result.0 ≡ length (depending 0 (its self.now)) - (dependencies_before (its self.now) p + length (dependencies_of (its self.now) p)) }
        ensures high { result.1 ≡ length (depending 0 (its self.now)) - dependencies_before (its self.now) p }
        ensures within { (result.0 ≤ result.1) × (result.1 ≤ self.now.directory.now.named.lists.count) }
    {
        let count = self.directory.counts.dependencies;
        let from = self.before(p).dependency;
        let to = self.before(p.saturating_add(1)).dependency;
        (count - to, count - from)
    }

    // The dependencies of a package that have a name.
    pub(crate) fn named<'b>(&self, owner: u32, name: &'b [u8]) -> Namesakes<'a, 'b>
        ensures { left result ≡ namesakes (its self.now) owner name.now }
    {
        let key = Key { owner, name };
        let (low, high) = self.entries_of(owner);
        Namesakes {
            filled: *self,
            key,
            at: self.directory.named.find_within(low, high, key),
            low,
        }
    }
}

impl<'a, 'b> Iterator for Namesakes<'a, 'b> {
    ghost use Rattle.std.specs.Iterator.{YieldsFirstBy, item_count};
    ghost use Rattle.graph.specs.Namesakes.{left, namesake_view};

    type Item = Namesake<'a>;

    ghost next_gives = { YieldsFirstBy namesake_view left };

    ghost remaining = { item_count left };

    // The next dependency. The index has the last one of the file first.
    fn next(&mut self) -> Option<Namesake<'a>> {
        let k = self.at?;
        let directory = self.filled.directory;
        self.at = directory.named.older(k, self.low, self.key);
        self.filled
            .dependency(directory.counts.dependencies - 1 - u32::from(k))
    }
}
