// The fields of a record, taken one after the other.
use crate::opener::graphs::{Form, Value};
use crate::opener::stops::{Place, Stop, Why};
use crate::second;
use graph_files::EdgeKind;
use refusals::Refusal;
use std::alloc::Global;
use text::{Piece, StringFault};

// What is left of a record, and the place in it where that begins, which the refusals tell.
#[derive(Drop)]
pub struct Fields<'a> {
    pub place: Place,
    pub rest: &'a [u8],
    pub at: usize,
}

impl<'a> Fields<'a> {
    fn ragged(&self) -> Refusal {
        self.place.refusal(Why::Ragged, self.at, 0)
    }

    // The field of N bytes, which must be there.
    fn field<const N: usize>(&mut self) -> Result<[u8; N], Refusal> {
        let (field, rest) = self.rest.split_first_chunk::<N>().ok_or(self.ragged())?;
        self.rest = rest;
        self.at = self.at.saturating_add(N);
        Ok(*field)
    }

    pub fn byte(&mut self) -> Result<u8, Refusal> {
        let [byte] = self.field::<1>()?;
        Ok(byte)
    }

    pub fn word(&mut self) -> Result<u16, Refusal> {
        Ok(u16::from_le_bytes(self.field()?))
    }

    pub fn switch(&mut self) -> Result<bool, Refusal> {
        let mark = self.place.refusal(Why::Mark, self.at, 0);
        match self.byte()? {
            0 => Ok(false),
            1 => Ok(true),
            _ => Err(mark),
        }
    }

    pub fn edge_kind(&mut self) -> Result<EdgeKind, Refusal> {
        let mark = self.place.refusal(Why::Mark, self.at, 0);
        EdgeKind::try_from(self.byte()?).map_err(|_| mark)
    }

    // A string, whose length byte is part of the field.
    fn string(&mut self) -> Result<Piece<'a>, Refusal> {
        let ragged = self.ragged();
        let (len, rest) = self.rest.split_first().ok_or(ragged)?;
        let (bytes, rest) = rest.split_at_checked(usize::from(*len)).ok_or(ragged)?;
        let at = self.at.saturating_add(1);
        self.rest = rest;
        self.at = at.saturating_add(bytes.len());
        Ok(Piece { at, bytes })
    }

    // The refusal of a string with that fault.
    fn misspelled(&self, string: Piece<'a>, fault: StringFault) -> Refusal {
        let (StringFault::NoName { prefix } | StringFault::NoForm { prefix }) = fault;
        self.place.refusal(Why::Name, string.at, prefix)
    }

    pub fn name(&mut self) -> Result<Piece<'a>, Refusal> {
        let name = self.string()?;
        second::of_name(name.bytes).map_err(|fault| self.misspelled(name, fault))?;
        Ok(name)
    }

    pub fn value(&mut self, heap: Global) -> Result<Value<'a>, Stop> {
        let string = self.string()?;
        let form = second::of_string(heap, string.bytes)?.map_err(|fault| self.misspelled(
            string, fault,
        ))?;
        Ok(Value {
            at: string.at,
            form: Form::from(form),
        })
    }

    // After the last field nothing may be left.
    pub fn finish(&self) -> Result<(), Refusal> {
        if self.rest.is_empty() {
            Ok(())
        } else {
            Err(self.ragged())
        }
    }
}
