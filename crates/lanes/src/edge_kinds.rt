// Edge kinds, and their numbers.
ghost use Rattle.std.specs.Prelude.{◌≡◌, ok_or};
ghost use Rattle.lanes.specs.EdgeKinds.{edge_kind_number, edge_kind_at, unknown_edge_kind};

// How many edge kinds there are.
pub(crate) const EDGE_KINDS: u32 = 3;

/// What a dependency is for. The kinds are numbered from 0 in this order.
#[derive(Clone, Copy, PartialEq, Eq, Debug)]
pub enum EdgeKind {
    /// What its owner needs when it runs.
    Normal,
    /// What its owner needs to be built.
    Build,
    /// What its owner's tests need.
    Dev,
}

/// A byte that stands for no edge kind.
#[derive(Clone, Copy, PartialEq, Eq, Debug)]
pub struct UnknownEdgeKind(pub u8);

impl EdgeKind {
    // Every edge kind, each at the place of its number.
    pub(crate) const BY_NUMBER: [EdgeKind; EDGE_KINDS as usize] = [
        EdgeKind::Normal,
        EdgeKind::Build,
        EdgeKind::Dev,
    ];
}

/// The edge kind of a byte: 0 normal, 1 build, 2 dev; no other byte has one.
impl TryFrom<u8> for EdgeKind {
    type Error = UnknownEdgeKind;

    ghost try_from_gives = { λ byte r. r ≡ ok_or (edge_kind_at byte) (unknown_edge_kind byte) };

    fn try_from(byte: u8) -> Result<EdgeKind, UnknownEdgeKind> {
        EdgeKind::BY_NUMBER
            .get(usize::from(byte))
            .copied()
            .ok_or(UnknownEdgeKind(byte))
    }
}

/// The number of an edge kind.
impl From<EdgeKind> for u32 {
    ghost from_gives = { λ kind n. n ≡ edge_kind_number kind };

    fn from(kind: EdgeKind) -> u32 {
        kind as u32
    }
}
