// What the bodies of records say.
use crate::strings::Strings;
use lanes::EdgeKind;
use text::Piece;

/// The body of a package record.
#[derive(Clone, Copy)]
pub struct Package<'a> {
    /// whether it is a procedural macro
    pub proc_mark: bool,
    /// its name, with the place in the record
    pub name: Piece<'a>,
}

/// The body of a dependency record, which belongs to the package record before it.
#[derive(Clone, Copy)]
pub struct Dependency<'a> {
    /// the number of the package that it needs, from 0 in file order
    pub end: u16,
    /// what it is for
    pub edge: EdgeKind,
    /// whether it is there only when a feature turns it on
    pub optional: bool,
    /// whether it asks for the feature `default` of its end
    pub defaults: bool,
    /// its name, with the place in the record
    pub name: Piece<'a>,
    /// the names of the features of its end that it asks for
    pub asks: Strings<'a>,
}

/// The body of a feature record, which belongs to the package record before it.
#[derive(Clone, Copy)]
pub struct Feature<'a> {
    /// its name, with the place in the record
    pub name: Piece<'a>,
    /// the feature strings that it turns on
    pub values: Strings<'a>,
}
