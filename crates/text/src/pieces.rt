// What a reading answers: pieces of the string that was read.

/// Bytes of a string or of a record, with the place where they begin.
#[derive(Clone, Copy, PartialEq, Eq, Debug)]
pub struct Piece<'a> {
    /// the place of the first byte, in bytes from the start of what was read
    pub at: usize,
    /// the bytes themselves
    pub bytes: &'a [u8],
}

/// A feature string by its form, with its names where they stand in it.
#[derive(Clone, Copy, PartialEq, Eq, Debug)]
pub enum FeatureString<'a> {
    /// `feature`: a feature of the same package.
    Plain {
        feature: Piece<'a>,
    },
    /// `dep:dependency`: an optional dependency is turned on.
    Switch {
        dependency: Piece<'a>,
    },
    /// `dependency/feature`: a dependency is turned on, with a feature of it.
    Strong {
        dependency: Piece<'a>,
        feature: Piece<'a>,
    },
    /// `dependency?/feature`: a feature of a dependency, if that is turned on by another.
    Weak {
        dependency: Piece<'a>,
        feature: Piece<'a>,
    },
}
