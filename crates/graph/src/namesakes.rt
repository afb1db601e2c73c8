// The dependencies of a package that have one name.
ghost use Rattle.std.specs.Prelude.{◌≡◌, ℕ, ◌<◌, false};
ghost use Rattle.std.specs.Option.{ForSome};
ghost use Rattle.graph.specs.Keys.{is_key};
ghost use Rattle.graph.specs.Buckets.{IsEntry, key_of, entry_at};

use crate::filled::Filled;
use crate::index::Key;
use records::Dependency;

// A dependency, and its local number.
#[derive(Clone, Copy)]
pub(crate) struct Namesake<'a> {
    pub item: u32,
    pub dependency: Dependency<'a>,
}

// Those of a package and name in file order, from the one that `at` is the number of, in the index of dependencies. Its
// first `low` entries, to which a list of the index may lead, are of other packages.
#[derive(Clone, Copy)]
pub(crate) struct Namesakes<'a, 'b> {
    pub filled: Filled<'a>,
    pub key: Key<'b>,
    pub at: Option<u16>,
    pub low: u32,
    ghost keyed: { ForSome at (IsEntry filled.directory.now.named.lists.entries filled.directory.now.named.lists.count key.owner key.name.now) },
    ghost above: { (k : ℕ) → k < low → is_key key.owner key.name.now (key_of (entry_at filled.directory.now.named.lists.entries k)) ≡ false },
}
