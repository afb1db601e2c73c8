// The numbers that a graph file gives to kinds of records and of dependencies.
ghost use Rattle.std.specs.Prelude.{◌≡◌};
ghost use Rattle.graph_files.specs.Kinds.{record_kind_of, edge_kind_of};

/// A number of no kind.
#[derive(Clone, Copy)]
pub struct NoKind;

/// The kind of a record.
#[derive(Clone, Copy, PartialEq, Eq)]
pub enum RecordKind {
    Header = 1,
    Package = 2,
    Dependency = 3,
    Feature = 4,
    End = 5,
}

impl TryFrom<u16> for RecordKind {
    type Error = NoKind;

    fn try_from(number: u16) -> Result<RecordKind, NoKind>
        ensures { result ≡ record_kind_of number }
    {
        match number {
            1 => Ok(RecordKind::Header),
            2 => Ok(RecordKind::Package),
            3 => Ok(RecordKind::Dependency),
            4 => Ok(RecordKind::Feature),
            5 => Ok(RecordKind::End),
            _ => Err(NoKind),
        }
    }
}

/// What a dependency is for.
#[derive(Clone, Copy, PartialEq, Eq)]
pub enum EdgeKind {
    Normal = 0,
    Build = 1,
    Dev = 2,
}

impl EdgeKind {
    /// Each kind, at its number.
    pub const ALL: [EdgeKind; 3] = [EdgeKind::Normal, EdgeKind::Build, EdgeKind::Dev];
}

impl TryFrom<u8> for EdgeKind {
    type Error = NoKind;

    fn try_from(number: u8) -> Result<EdgeKind, NoKind>
        ensures { result ≡ edge_kind_of number }
    {
        match number {
            0 => Ok(EdgeKind::Normal),
            1 => Ok(EdgeKind::Build),
            2 => Ok(EdgeKind::Dev),
            _ => Err(NoKind),
        }
    }
}
