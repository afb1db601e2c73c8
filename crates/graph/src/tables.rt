// The tables of a directory.
ghost use Rattle.std.specs.Prelude.{◌+◌, ◌≤◌, length};
ghost use Rattle.graph.specs.Limits.{max_local_items};

use crate::contents::Counts;
use crate::index::Index;
use crate::limits::{MAX_DECLARATIONS, MAX_DEPENDENCIES, MAX_FEATURES, MAX_PACKAGES};

// A package: its proc mark, and the numbers of its first dependency and of its first feature. They end where the
// next package's begin.
#[derive(Clone, Copy)]
pub(crate) struct PackageEntry {
    pub proc_mark: bool,
    pub dependency: u32,
    pub feature: u32,
}

// A dependency or feature record: its start in the file, and the number of its package.
#[derive(Clone, Copy)]
pub(crate) struct DeclarationEntry {
    pub start: u32,
    pub owner: u32,
}

// Some records in file order: the local number of the first, and where each starts in the file.
#[derive(Clone, Copy)]
pub(crate) struct Starts<'a> {
    pub first: u32,
    pub starts: &'a [u32],
    ghost few: { first + length starts.now ≤ max_local_items },
}

// Where everything stands in a graph file that the first reading has accepted. `packages`, `dependencies` and
// `features` are in file order, the last two as starts of records; `declarations` has both of these together, with their
// owners, since one look asks by package and the other goes in file order. `index` has the features by package and
// name, and `named` the dependencies, the last one first, since a bucket's list then has them in file order. The memory
// is fixed, since the library allocates nothing; how far each table is filled, `counts` says.
#[derive(Drop)]
pub(crate) struct Directory<'a> {
    pub index: Index<'a>,
    pub named: Index<'a>,
    pub counts: Counts,
    pub packages: [PackageEntry; MAX_PACKAGES],
    pub dependencies: [u32; MAX_DEPENDENCIES],
    pub features: [u32; MAX_FEATURES],
    pub declarations: [DeclarationEntry; MAX_DECLARATIONS],
}
