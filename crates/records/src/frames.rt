// A file cut into records.
ghost use Rattle.std.specs.Prelude.{◌≡◌, ok_or};
ghost use Rattle.text.specs.Views.{map_ok};
ghost use Rattle.records.specs.declared.faults.RecordFault.TheVariants.{Stray};
ghost use Rattle.records.specs.Frames.{kind_at, frame, frame_of};

use crate::faults::RecordFault;

/// The kinds of records, by number in a file: 1 header, 2 package, 3 dependency, 4 feature, 5 end.
#[derive(Clone, Copy, PartialEq, Eq, Debug)]
pub enum Kind {
    Header,
    Package,
    Dependency,
    Feature,
    End,
}

impl TryFrom<u16> for Kind {
    type Error = RecordFault;

    ghost try_from_gives = { λ number r. r ≡ ok_or (kind_at number) Stray };

    fn try_from(number: u16) -> Result<Kind, RecordFault> {
        match number {
            1 => Ok(Kind::Header),
            2 => Ok(Kind::Package),
            3 => Ok(Kind::Dependency),
            4 => Ok(Kind::Feature),
            5 => Ok(Kind::End),
            _ => Err(RecordFault::Stray),
        }
    }
}

/// A record cut from the bytes that it begins.
#[derive(Clone, Copy)]
pub struct Frame<'a> {
    /// its kind, as a number that may stand for none
    pub kind: u16,
    /// its fields
    pub body: &'a [u8],
    /// what comes after it
    pub after: &'a [u8],
}

/// The record at the front of some bytes: its length in four bytes, which counts what follows, its kind in two, and its
/// body. Bytes that end before the record does are refused, and so is a length below 2.
pub fn first_frame<'a>(bytes: &'a [u8]) -> Result<Frame<'a>, RecordFault>
    ensures { map_ok frame result ≡ frame_of bytes.now }
{
    let (length, rest) = bytes.split_first_chunk::<4>().ok_or(RecordFault::Cut)?;
    let length = u32::from_le_bytes(*length) as usize;
    let (inside, after) = rest.split_at_checked(length).ok_or(RecordFault::Cut)?;
    let (kind, body) = inside
        .split_first_chunk::<2>()
        .ok_or(RecordFault::Ragged { field: 0 })?;
    let kind = u16::from_le_bytes(*kind);
    Ok(Frame { kind, body, after })
}
