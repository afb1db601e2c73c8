// The reader of a record: what is left of it, and its fields in the order in which they are read.
ghost use Rattle.std.specs.Prelude.{◌≡◌, ◌+◌, ◌^◌, ◌<◌, length, IfOk};

use crate::bodies::{Dependency, Package};
use crate::faults::RecordFault;
use crate::from_piece::FromPiece;
use crate::strings::Strings;
use crate::version::VERSION;
use lanes::EdgeKind;
use text::{FeatureString, Piece};

/// What is left of a record, and the place in the record where it begins, in bytes from its start.
///
/// After a refused field only `end` says what is left.
#[derive(Clone, Copy)]
pub struct Reader<'a> {
    /// the bytes that are left
    pub rest: &'a [u8],
    /// the place in the record of the first of them
    pub at: usize,
    ghost small: { at + length rest.now < 2 ^ 63 },
}

impl<'a> Reader<'a> {
    ghost use Rattle.text.specs.Views.{piece};
    ghost use Rattle.records.specs.Fields.{view, outcome, outcome_by, bytes_field, byte_field, word_field, string_field, text_field, name_field, switch_field, edge_field, end_field, void, header_field};
    ghost use Rattle.records.specs.Bodies.{texts, forms, Full, many, list_field, names_field, forms_field, values_field, package_view, package_field, package_name_at, dependency_view, dependency_field, dependency_name_at};

    // The next so many bytes.
    fn array<const N: usize>(&mut self) -> Result<[u8; N], RecordFault>
        ensures { outcome result (view self.new) ≡ bytes_field N (view self.old) }
    {
        let field = self.at;
        let (bytes, rest) = self
            .rest
            .split_first_chunk::<N>()
            .ok_or(RecordFault::Ragged { field })?;
        *self = Reader {
            rest,
            at: field + N,
        };
        Ok(*bytes)
    }

    // The next byte.
    fn byte(&mut self) -> Result<u8, RecordFault>
        ensures { outcome result (view self.new) ≡ byte_field (view self.old) }
    {
        let [b] = self.array::<1>()?;
        Ok(b)
    }

    // The next two bytes, as a number.
    fn word(&mut self) -> Result<u16, RecordFault>
        ensures { outcome result (view self.new) ≡ word_field (view self.old) }
    {
        Ok(u16::from_le_bytes(self.array()?))
    }

    // A string: one length byte, and that many bytes. One that is cut short leaves the reader before its length byte.
    fn string(&mut self) -> Result<Piece<'a>, RecordFault>
        ensures { outcome_by piece result (view self.new) ≡ string_field (view self.old) }
    {
        let field = self.at;
        let mut next = *self;
        let n = usize::from(next.byte()?);
        let at = next.at;
        let (bytes, rest) = next
            .rest
            .split_at_checked(n)
            .ok_or(RecordFault::Ragged { field })?;
        *self = Reader { rest, at: at + n };
        Ok(Piece { at, bytes })
    }

    // A string that is read as a `T`.
    fn text<T: FromPiece<'a>>(&mut self) -> Result<T, RecordFault>
        ensures { outcome_by T.meaning result (view self.new) ≡ text_field T.reading (view self.old) }
    {
        Ok(T::read(self.string()?)?)
    }

    /// A string that is a name. Refused are a record that ends first, and bytes that are no name.
    pub fn name(&mut self) -> Result<Piece<'a>, RecordFault>
        ensures { outcome_by piece result (view self.new) ≡ name_field (view self.old) }
    {
        self.text()
    }

    // A byte that is 0 or 1.
    fn switch(&mut self) -> Result<bool, RecordFault>
        ensures { outcome result (view self.new) ≡ switch_field (view self.old) }
    {
        let field = self.at;
        match self.byte()? {
            0 => Ok(false),
            1 => Ok(true),
            _ => Err(RecordFault::Mark { field }),
        }
    }

    // An edge kind.
    fn edge(&mut self) -> Result<EdgeKind, RecordFault>
        ensures { outcome result (view self.new) ≡ edge_field (view self.old) }
    {
        let field = self.at;
        EdgeKind::try_from(self.byte()?).map_err(|_| RecordFault::Mark { field })
    }

    /// The record ends here; refused are bytes that are left over. The reader stays as it is.
    pub fn end(&mut self) -> Result<(), RecordFault>
        ensures value { outcome result (view self.new) ≡ end_field (view self.old) }
        ensures still { view self.new ≡ view self.old }
    {
        if self.rest.is_empty() {
            Ok(())
        } else {
            Err(RecordFault::Ragged { field: self.at })
        }
    }

    // So many strings that are each read as a `T`.
    fn each<T: FromPiece<'a>>(&mut self, count: u8) -> Result<(), RecordFault>
        ensures { outcome result (view self.new)
            ≡ void (many (text_field T.reading) count) (view self.old) }
    {
        for _i in 0..count {
            self.text::<T>()?;
        }
        Ok(())
    }

    // A count byte, and that many strings that are each read as a `T`.
    fn list<T: FromPiece<'a>>(&mut self) -> Result<Strings<'a>, RecordFault>
        ensures value { outcome_by texts result (view self.new)
            ≡ list_field (text_field T.reading) (view self.old) }
        ensures full { IfOk result Full }
    {
        let count = self.byte()?;
        let bytes = self.rest;
        self.each::<T>(count)?;
        Ok(Strings { count, bytes })
    }

    // A count byte, and that many names.
    fn names(&mut self) -> Result<Strings<'a>, RecordFault>
        ensures value { outcome_by texts result (view self.new) ≡ names_field (view self.old) }
        ensures full { IfOk result Full }
    {
        self.list::<Piece>()
    }

    // A count byte, and that many feature strings.
    fn forms(&mut self) -> Result<Strings<'a>, RecordFault>
        ensures value { outcome_by forms result (view self.new) ≡ forms_field (view self.old) }
        ensures full { IfOk result Full }
    {
        self.list::<FeatureString>()
    }

    /// The values of a feature, which end its record: a count byte and that many feature strings. Each is checked here;
    /// the answer holds them as bytes.
    pub fn values(&mut self) -> Result<Strings<'a>, RecordFault>
        ensures value { outcome_by forms result (view self.new) ≡ values_field (view self.old) }
        ensures full { IfOk result Full }
    {
        let values = self.forms()?;
        self.end()?;
        Ok(values)
    }

    /// The body of a package record: the procedural macro's mark and the name, which end the record.
    pub fn package(&mut self) -> Result<Package<'a>, RecordFault>
        ensures value { outcome_by package_view result (view self.new) ≡ package_field (view self.old) }
        ensures place { IfOk result (λ p. p.name.at ≡ package_name_at self.old.at) }
    {
        let proc_mark = self.switch()?;
        let name = self.name()?;
        self.end()?;
        Ok(Package { proc_mark, name })
    }

    /// The body of a dependency record: the number of the package at its end, the edge kind, the two switches, the name
    /// and the names of the features that it asks for, which end the record.
    pub fn dependency(&mut self) -> Result<Dependency<'a>, RecordFault>
        ensures value { outcome_by dependency_view result (view self.new) ≡ dependency_field (view self.old) }
        ensures place { IfOk result (λ d. d.name.at ≡ dependency_name_at self.old.at) }
        ensures full { IfOk result (λ d. Full d.asks) }
    {
        let end = self.word()?;
        let edge = self.edge()?;
        let optional = self.switch()?;
        let defaults = self.switch()?;
        let name = self.name()?;
        let asks = self.names()?;
        self.end()?;
        Ok(Dependency {
            end,
            edge,
            optional,
            defaults,
            name,
            asks,
        })
    }

    /// The body of a header record: the version of the format, which ends the record. Any other version is refused.
    pub fn header(&mut self) -> Result<(), RecordFault>
        ensures { outcome result (view self.new) ≡ header_field (view self.old) }
    {
        let field = self.at;
        let version = self.word()?;
        if version != VERSION {
            return Err(RecordFault::Mark { field });
        }
        self.end()
    }
}
