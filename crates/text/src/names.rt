// The reader of names.
ghost use Rattle.std.specs.Prelude.{◌≡◌};
ghost use Rattle.text.specs.Laws.{NameLaw};
ghost use Rattle.text.specs.Readers.{fits_name, read_name};
ghost use Rattle.text.specs.Views.{map_ok, piece};

use crate::faults::StringFault;
use crate::limits::MAX_NAME_BYTES;
use crate::pieces::Piece;

// Whether a name may have `c` at this place.
fn fits_name(at: usize, c: char) -> bool
    ensures { result ≡ fits_name at c }
{
    matches!((at, c), (0, initial!()) | (1..MAX_NAME_BYTES, inner!()))
}

/// Reads a string as a name: 1 to 64 letters, digits or `_`, and after the first byte also `-`, `+` and `.`. The answer is
/// the whole string, at place 0. Any other string is refused, with the length of its longest prefix that begins a name.
pub fn read_name<'a>(text: &'a [u8]) -> Result<Piece<'a>, StringFault>
    ensures value { map_ok piece result ≡ read_name text.now }
    ensures law { NameLaw text.now (map_ok piece result) }
{
    for (at, b) in text.iter().enumerate() {
        if !fits_name(at, char::from(*b)) {
            return Err(StringFault::NoName { prefix: at });
        }
    }
    if text.is_empty() {
        return Err(StringFault::NoName { prefix: 0 });
    }
    Ok(Piece { at: 0, bytes: text })
}
