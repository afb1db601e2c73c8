// An index of the features, or of the dependencies, of a graph file, by package and name.
ghost use Rattle.std.specs.Prelude.{◌≡◌, ◌≤◌};
ghost use Rattle.graph.specs.Buckets.{key_view, key_of, Linked};
ghost use Rattle.graph.specs.Limits.{max_features};
ghost use Rattle.std.proofs.Props.{props};

use crate::limits::MAX_FEATURES;

// How many lists the entries are spread over.
pub const BUCKETS: usize = 32_749;

// By what the hash grows with each byte of a name.
pub const FACTOR: usize = 263;

// What an entry is found by: the number of its package, and its name.
#[derive(Clone, Copy, PartialEq, Eq)]
pub struct Key<'a> {
    pub owner: u32,
    pub name: &'a [u8],
}

// A feature or dependency by its name and package, and the number of the entry before it in its bucket's list. The fields
// of the key stand here by themselves, and the largest first: so an entry takes 24 bytes, and with a key in it 32.
#[derive(Clone, Copy)]
pub struct IndexEntry<'a> {
    pub name: &'a [u8],
    pub owner: u32,
    pub next: Option<u16>,
}

impl<'a> IndexEntry<'a> {
    // What it is found by.
    pub(crate) fn key(&self) -> Key<'a>
        ensures { key_view result ≡ key_of self.now }
    {
        Key {
            owner: self.owner,
            name: self.name,
        }
    }
}

// The entries so far, by number; and for each bucket the number of its newest entry. The memory is fixed, since the
// library allocates nothing, so the lists are linked by number. There is room for the most features, and so for the
// most dependencies, which are as many. The lists are a type of their own since `add` writes all three fields before
// they are whole again.
#[derive(Drop)]
pub struct Lists<'a> {
    pub count: u16,
    pub entries: [IndexEntry<'a>; MAX_FEATURES],
    pub heads: [Option<u16>; BUCKETS],
}

// An index of the declarations of a file, whose lists are whole.
#[derive(Drop)]
pub struct Index<'a> {
    pub file: &'a [u8],
    pub lists: Lists<'a>,
    ghost few: { lists.count ≤ max_features },
    ghost linked: { Linked lists.entries lists.heads lists.count } by { Prim.hlevel props },
}
