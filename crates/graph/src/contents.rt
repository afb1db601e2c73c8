// What a record says, and what was read before it.
use records::{Dependency, Feature, Frame, Package};

// Where the name of a feature begins in its record: after length, kind and the name's own length.
pub(crate) const FEATURE_NAME: usize = 7;

#[derive(Clone, Copy)]
pub(crate) enum Content<'a> {
    Header,
    Package(Package<'a>),
    Dependency(Dependency<'a>),
    Feature(Feature<'a>),
    End,
}

// A dependency or feature record, which belongs to a package.
#[derive(Clone, Copy)]
pub(crate) enum DeclarationRecord<'a> {
    Dependency(Dependency<'a>),
    Feature(Feature<'a>),
}

// A record that was found: what it says, and its frame.
#[derive(Clone, Copy)]
pub(crate) struct ReadRecord<'a> {
    pub content: Content<'a>,
    pub frame: Frame<'a>,
}

// Where a reading stands: the number and the start of the next record, and how many packages and
// dependencies are before it. The features before it are in the index.
#[derive(Clone, Copy)]
pub(crate) struct Cursor {
    pub number: usize,
    pub start: usize,
    pub packages: u32,
    pub dependencies: u32,
}

// What a graph file has, all of it or so far: bytes that are read, packages, dependencies and features. What callers
// see is `Opened`, with the rows, which are counted last.
#[derive(Clone, Copy)]
pub(crate) struct Counts {
    pub read: usize,
    pub packages: u32,
    pub dependencies: u32,
    pub features: u32,
}
