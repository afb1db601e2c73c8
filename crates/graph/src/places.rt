// Where the records of a graph stand, and what they are.
ghost use Rattle.std.specs.Prelude.{◌≡◌, ℕ, ◌+◌, ◌-◌, ◌<◌, ◌≤◌, length, take, drop, slice_index, slice_index_or, Some, option_map};
ghost use Rattle.records.specs.Graphs.{Declaration, dependency, feature};
ghost use Rattle.graph.specs.Directory.{no_declaration_entry, no_place};
ghost use Rattle.graph.specs.Limits.{max_local_items};
ghost use Rattle.graph.specs.RowLists.{its, ReadsAs, PlacedAs};
ghost use Rattle.graph.specs.Places.{dep, feat, dependencies_of, features_of, package_at, number, dependencies_before, features_before, no_dependency, no_feature};
ghost use Rattle.graph.specs.Rules.{place_of};
ghost use Rattle.graph.specs.Second.{has_feature, declaration_places};
ghost use Rattle.graph.specs.Views.{declaration_view};

use crate::contents::DeclarationRecord;
use crate::declarations::declaration_at;
use crate::filled::Filled;
use crate::index::Key;
use crate::tables::{DeclarationEntry, PackageEntry, Starts};

// The records of a table from one number to another.
fn between<'a>(first: u32, table: &'a [u32], from: u32, to: u32) -> Starts<'a>
    requires within { (from ≤ to) × (to ≤ length table.now) }
    requires few { first + (to - from) ≤ max_local_items }
    ensures first { result.first ≡ first }
    ensures starts { result.starts.now ≡ take (to - from) (drop from table.now) }
{
    Starts {
        first,
        starts: &table[from as usize..to as usize],
    }
}

impl<'a> Filled<'a> {
    // How many dependencies and features the packages before one have.
    pub(crate) fn before(&self, p: u32) -> PackageEntry
        ensures dependency { result.dependency ≡ dependencies_before (its self.now) p }
        ensures feature { result.feature ≡ features_before (its self.now) p }
    {
        let counts = self.directory.counts;
        if p < counts.packages {
            return self.directory.packages[p as usize];
        }
        PackageEntry {
            proc_mark: false,
            dependency: counts.dependencies,
            feature: counts.features,
        }
    }

    // The dependencies of a package.
    pub(crate) fn dependencies(&self, p: u32) -> Starts<'a>
        ensures count { length result.starts.now ≡ length (dependencies_of (its self.now) p) }
        ensures records { (k : ℕ) → k < length (dependencies_of (its self.now) p) → ReadsAs self.now (slice_index result.starts.now k) (dependency (slice_index_or (dependencies_of (its self.now) p) k no_dependency)) }
        ensures number { (k : ℕ) → result.first + k ≡ number (its self.now) (dep p k) }
    {
        let table = &self.directory.dependencies[..];
        let from = self.before(p).dependency;
        let to = self.before(p.saturating_add(1)).dependency;
        between(self.directory.counts.packages + from, table, from, to)
    }

    // The features of a package.
    pub(crate) fn features(&self, p: u32) -> Starts<'a>
        ensures count { length result.starts.now ≡ length (features_of (its self.now) p) }
        ensures records { (k : ℕ) → k < length (features_of (its self.now) p) → ReadsAs self.now (slice_index result.starts.now k) (feature (slice_index_or (features_of (its self.now) p) k no_feature)) }
        ensures number { (k : ℕ) → result.first + k ≡ number (its self.now) (feat p k) }
    {
        let table = &self.directory.features[..];
        let from = self.before(p).feature;
        let to = self.before(p.saturating_add(1)).feature;
        let before = self.directory.counts.packages + self.directory.counts.dependencies;
        between(before + from, table, from, to)
    }

    // All dependencies and features, in file order.
    pub(crate) fn declarations(&self) -> &'a [DeclarationEntry]
        ensures count { length result.now ≡ length (declaration_places (its self.now)) }
        ensures declarations { (j : ℕ) → j < length (declaration_places (its self.now)) → PlacedAs self.now (slice_index_or result.now j no_declaration_entry) (slice_index_or (declaration_places (its self.now)) j no_place) }
    {
        let count = self.directory.counts.dependencies + self.directory.counts.features;
        let table = &self.directory.declarations[..];
        &table[..count as usize]
    }

    // The dependency or feature record at a place.
    pub(crate) fn declaration_at(&self, start: u32) -> Option<DeclarationRecord<'a>>
        ensures { (p : Declaration) → ReadsAs self.now start p → option_map declaration_view result ≡ Some p }
    {
        let directory = self.directory;
        declaration_at(directory.index.file, start as usize)
    }

    // The local number of the feature of a package and name.
    pub(crate) fn feature_item(&self, owner: u32, name: &[u8]) -> Option<u32>
        ensures { result ≡ option_map (λ j. number (its self.now) (feat owner j)) (place_of (features_of (its self.now) owner) name.now) }
    {
        let base = self.directory.counts.packages + self.directory.counts.dependencies;
        let k = self.directory.index.find(Key { owner, name })?;
        Some(base + u32::from(k))
    }

    // Whether a package has a feature of this name.
    pub(crate) fn has_feature(&self, p: u32, name: &[u8]) -> bool
        ensures { result ≡ has_feature (features_of (its self.now) p) name.now }
    {
        self.feature_item(p, name).is_some()
    }

    // Whether a package is a procedural macro.
    pub(crate) fn is_procedural(&self, p: u32) -> bool
        ensures { result ≡ (package_at (its self.now) p).proc }
    {
        p < self.directory.counts.packages && self.directory.packages[p as usize].proc_mark
    }
}
